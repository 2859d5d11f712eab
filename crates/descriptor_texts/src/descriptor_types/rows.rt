//! The types of an assembly by their names.

ghost use Rattle.std.specs.Prelude.{◌≡◌, ℕ, List, bytes_eq, IfOk, OnOk};
ghost use Rattle.rules.specs.link_rules.Types.{or_else};
ghost use Rattle.rules.specs.type_rules.Rows.{is_module_type};
ghost use Rattle.mark_parts.specs.mark_tables.Assemblies.{recs_of, rec_of, IsAssembly};
ghost use Rattle.descriptor_texts.specs.slashed_names.Names.{AreNames};
ghost use Rattle.descriptor_texts.specs.descriptor_types.Rows.{row_if, row_in, has_name, first_from, AreTypeRows};

use crate::slashed_names::names::SlashedNames;
use il_base::NoMemory;
use il_base::world_model::TypeDefRow;
use mark_parts::mark_tables::assembly::Assembly;
use rules::link_rules::RowAt;
use std::alloc::Global;
use std::collections::HashMap;
use type_tables::member_search::counted::row_of;

/// The rows, from 0, of the types of an assembly by their names, of two types with one name the first. `<Module>` is none.
#[derive(Drop)]
pub struct TypeRows<'a> {
    rows: HashMap<&'a [u8], u32>,
}

/// Puts a row under its name, where the name has none yet.
fn put_first<'a>(
    rows: &mut HashMap<&'a [u8], u32>,
    name: &'a [u8],
    row: u32,
) -> Result<(), NoMemory>
    ensures { OnOk result ((q : List ℕ) → row_in rows.new q ≡ or_else (row_in rows.old q) (row_if (bytes_eq name.now q) row)) }
{
    if rows.contains_key(name) {
        return Ok(());
    }
    rows.insert(name, row)?;
    Ok(())
}

/// Whether a row of TypeDef, from 0, is `<Module>` (II.22.37).
fn is_module_type(k: usize, t: &TypeDefRow) -> bool
    ensures { result ≡ is_module_type k t.now }
{
    k == 0 && t.name.as_slice() == b"<Module>".as_slice() && t.namespace.is_empty()
}

/// Puts a type, by its row from 0, under its name, where the name has none yet.
fn put_type<'a>(
    names: &'a SlashedNames,
    asm: &Assembly<'_>,
    k: usize,
    t: &TypeDefRow,
    rows: &mut HashMap<&'a [u8], u32>,
) -> Result<(), NoMemory>
    requires asm { IsAssembly asm.now }
    requires names { AreNames (recs_of asm.now) names.now }
    ensures { OnOk result ((q : List ℕ) → row_in rows.new q ≡ or_else (row_in rows.old q) (row_if (has_name (rec_of asm.now) q k t.now) k)) }
{
    let is_module = is_module_type(k, t);
    if is_module {
        return Ok(());
    }
    let row = row_of(k)?;
    let at = RowAt {
        asm: asm.scope.asm,
        row,
    };
    put_first(rows, names.name_at(at), row)?;
    Ok(())
}

/// These types of an assembly, which are all, by their names.
fn type_rows<'a>(
    alloc: Global,
    names: &'a SlashedNames,
    asm: &Assembly<'_>,
    types: &[TypeDefRow],
) -> Result<HashMap<&'a [u8], u32>, NoMemory>
    requires asm { IsAssembly asm.now }
    requires names { AreNames (recs_of asm.now) names.now }
    ensures { IfOk result (λ rows. (q : List ℕ) → row_in rows q ≡ first_from (rec_of asm.now) q 0 types.now) }
{
    let mut rows: HashMap<&'a [u8], u32> = HashMap::new(alloc);
    for (k, t) in types.iter().enumerate() {
        put_type(names, asm, k, t, &mut rows)?;
    }
    Ok(rows)
}

impl<'a> TypeRows<'a> {
    /// No row.
    pub(crate) fn none(alloc: Global) -> TypeRows<'a> {
        TypeRows {
            rows: HashMap::new(alloc),
        }
    }

    /// The types of an assembly.
    pub(crate) fn of(
        alloc: Global,
        names: &'a SlashedNames,
        asm: &Assembly<'_>,
    ) -> Result<TypeRows<'a>, NoMemory>
        requires asm { IsAssembly asm.now }
        requires names { AreNames (recs_of asm.now) names.now }
        ensures { IfOk result (AreTypeRows (rec_of asm.now)) }
    {
        let rows = type_rows(alloc, names, asm, asm.scope.rec.type_def.as_slice())?;
        Ok(TypeRows { rows })
    }

    /// The row, from 0, of the first type with a name.
    pub(crate) fn get(&self, name: &[u8]) -> Option<u32>
        ensures { result ≡ row_in self.now.rows name.now }
    {
        self.rows.get(name).copied()
    }
}
