//! The setter of a property (II.22.28).

ghost use Rattle.std.specs.Prelude.{◌≡◌, [], slice_get, IfOk};
ghost use Rattle.std.specs.List.{flat_map};
ghost use Rattle.std.specs.Option.{option_map_or};
ghost use Rattle.rules.specs.link_rules.Cycles.{listed};
ghost use Rattle.rules.specs.mark_rules.Attributes.{head_of, setters_of};
ghost use Rattle.type_tables.specs.Tables.{AreRowTables};
ghost use Rattle.mark_parts.specs.mark_tables.Assemblies.{all_of, IsMarker};
ghost use Rattle.mark_items.specs.mark_named.Setters.{setter_row, setter_at};

use il_base::world_model::{AsmRec, MethodSemanticsRow, index_in, token_of};
use il_base::{NoMemory, semantics, table};
use mark_parts::mark_tables::marker::Marker;
use rules::link_rules::RowAt;
use type_tables::methods::has_owner;
use type_tables::tables::RowTables;

/// The method of a row, if it is a setter that a type's run has.
fn setter_row(rec: &AsmRec, tables: &RowTables, row: &MethodSemanticsRow) -> Option<u32>
    requires { AreRowTables rec.now tables.now }
    ensures { listed result ≡ setter_row rec.now row.now }
{
    if row.semantics % 2 != semantics::SETTER {
        return None;
    }
    let method = index_in(table::METHOD_DEF, row.method)?;
    if has_owner(rec, tables, method) {
        return Some(method);
    }
    None
}

/// The method of a row, from 0, of MethodSemantics, if it is a setter that a type's run has.
fn setter_at(rec: &AsmRec, tables: &RowTables, k: u32) -> Option<u32>
    requires { AreRowTables rec.now tables.now }
    ensures { listed result ≡ setter_at rec.now k }
{
    match rec.method_semantics.get(k as usize) {
        None => None,
        Some(row) => setter_row(rec, tables, row),
    }
}

/// The first setter among rows, from 0, of MethodSemantics.
fn first_setter(rec: &AsmRec, tables: &RowTables, rows: &[u32]) -> Option<u32>
    requires { AreRowTables rec.now tables.now }
    ensures { result ≡ head_of (flat_map (setter_at rec.now) rows.now) }
{
    for k in rows {
        match setter_at(rec, tables, *k) {
            Some(method) => return Some(method),
            None => {}
        }
    }
    None
}

/// The first setter of a property.
pub(crate) fn setter_of(marker: &Marker<'_>, p: RowAt) -> Result<Option<RowAt>, NoMemory>
    requires { IsMarker marker.now }
    ensures { IfOk result (λ found. listed found ≡ setters_of (all_of marker.now) p) }
{
    let Some(asm) = marker.assembly_at(p.asm) else {
        return Ok(None);
    };
    let token = token_of(table::PROPERTY, p.row as usize)?;
    let rows = asm.of_types.semantics.rows_with(token);
    match first_setter(asm.scope.rec, asm.of_types, rows) {
        Some(row) => Ok(Some(RowAt { asm: p.asm, row })),
        None => Ok(None),
    }
}
