//! Methods that need code that nothing refers to.

ghost use Rattle.std.specs.Prelude.{◌≡◌, codes, IfOk};
ghost use Rattle.std.specs.List.{list_any};
ghost use Rattle.rules.specs.mark_rules.Annotations.{is_initializer_name, is_called, requires_unreferenced, needs_unreferenced};
ghost use Rattle.mark_parts.specs.mark_tables.Assemblies.{all_of, IsMarker};
ghost use Rattle.attribute_values.specs.attribute_kinds.Sites.{rec_in, IsSite};
ghost use Rattle.attribute_values.specs.Tables.{AreAttributeTables};
ghost use Rattle.site_kinds.specs.annotation_flags.Unreferenced.{needed_at, needed_in};

use attribute_values::attribute_kinds::site::Site;
use attribute_values::attribute_rows::rows::rows_of_token;
use attribute_values::reader::reader_of;
use attribute_values::tables::AttributeTables;
use attribute_values::trimming_attributes::names::is_requires_unreferenced;
use il_base::world_model::{AsmRec, token_of};
use il_base::{NoMemory, table};
use mark_parts::mark_tables::marker::Marker;
use rules::link_rules::RowAt;
use type_tables::methods::method_row_at;

/// Whether a method is named `.cctor`.
fn is_initializer_name(all: &[AsmRec], at: RowAt) -> bool
    ensures { result ≡ is_initializer_name all.now at }
{
    match method_row_at(all, at) {
        Some(m) => m.name.as_slice() == b".cctor".as_slice(),
        None => false,
    }
}

/// Whether the row in a place of CustomAttribute, from 0, says so.
fn needed_at(site: &Site<'_>, k: u32) -> Result<bool, NoMemory>
    requires { IsSite site.now }
    ensures { IfOk result (λ is. is ≡ needed_at (rec_in site.now) k) }
{
    match site.asm.scope.rec.custom_attribute.get(k as usize) {
        Some(row) => is_requires_unreferenced(site, row),
        None => Ok(false),
    }
}

/// Whether one of these rows of CustomAttribute, by their places from 0, says so.
fn any_needed(site: &Site<'_>, rows: &[u32]) -> Result<bool, NoMemory>
    requires { IsSite site.now }
    ensures { IfOk result (λ is. is ≡ list_any (needed_at (rec_in site.now)) rows.now) }
{
    for k in rows {
        match needed_at(site, *k) {
            Ok(true) => return Ok(true),
            Ok(false) => {}
            Err(error) => return Err(error),
        }
    }
    Ok(false)
}

/// Whether the method in a row, from 0, of the assembly is annotated so.
fn needed_in(site: &Site<'_>, row: u32) -> Result<bool, NoMemory>
    requires { IsSite site.now }
    ensures { IfOk result (λ is. is ≡ needed_in (rec_in site.now) row) }
{
    let token = token_of(table::METHOD_DEF, row as usize)?;
    let rows = rows_of_token(&site.asm, token);
    let is = any_needed(site, rows)?;
    Ok(is)
}

/// Whether a method needs code that nothing refers to. Type initializers never do, whatever attributes they have.
#[tactic(auto, unfolding(rules::specs::mark_rules::Annotations::needs_unreferenced))]
pub fn needs_unreferenced<'a>(
    marker: &'a Marker<'a>,
    tables: &'a AttributeTables<'a>,
    at: RowAt,
) -> Result<bool, NoMemory>
    requires marker { IsMarker marker.now }
    requires tables { AreAttributeTables marker.now tables.now }
    ensures { IfOk result (λ is. is ≡ needs_unreferenced (all_of marker.now) at) }
{
    if is_initializer_name(marker.tables.world.recs.as_slice(), at) {
        return Ok(false);
    }
    let Some(asm) = marker.assembly_at(at.asm) else {
        return Ok(false);
    };
    let reader = reader_of(marker, tables, asm, at.asm)?;
    let is = needed_in(&reader.site, at.row)?;
    Ok(is)
}
