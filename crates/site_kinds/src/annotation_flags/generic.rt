//! The kinds of generic parameters (II.22.20).

ghost use Rattle.std.specs.Prelude.{◌≡◌, IfOk};
ghost use Rattle.std.specs.List.{flat_map};
ghost use Rattle.rules.specs.link_rules.Cycles.{listed};
ghost use Rattle.rules.specs.mark_rules.Annotations.{or_zero, with_new, generic_kinds};
ghost use Rattle.mark_parts.specs.mark_tables.Assemblies.{all_of, IsMarker};
ghost use Rattle.attribute_values.specs.Tables.{AreAttributeTables};
ghost use Rattle.attribute_values.specs.attribute_kinds.Sites.{recs_in, place_in, rec_in};
ghost use Rattle.attribute_values.specs.Readers.{IsReader};
ghost use Rattle.site_kinds.specs.annotation_flags.Slots.{numbered_kinds, numbered_at};

use attribute_values::reader::{Reader, reader_of};
use attribute_values::tables::AttributeTables;
use attribute_values::trimming_attributes::kinds::kinds_at;
use il_base::world_model::{GenericParamRow, token_of};
use il_base::{NoMemory, generic_flags, has_flag, table};
use mark_parts::mark_tables::marker::Marker;
use rules::link_rules::RowAt;
use rules::mark_rules::member_kinds;
use std::alloc::Global;

/// These kinds, and the public constructor without parameters of a parameter with the `new()` constraint.
fn with_new(row: &GenericParamRow, kinds: u32) -> u32
    ensures { result ≡ with_new row.now kinds }
{
    if has_flag(row.flags, generic_flags::DEFAULT_CONSTRUCTOR_CONSTRAINT)
        && kinds / member_kinds::PUBLIC_PARAMETERLESS_CONSTRUCTOR % 2 == 0
    {
        return kinds + member_kinds::PUBLIC_PARAMETERLESS_CONSTRUCTOR;
    }
    kinds
}

/// The kinds of a row of GenericParam, from 0, if it has a number.
fn numbered_kinds(
    alloc: Global,
    reader: &Reader<'_>,
    n: u32,
    k: u32,
    row: &GenericParamRow,
) -> Result<Option<u32>, NoMemory>
    requires { IsReader reader.now }
    ensures { IfOk result (λ kinds. listed kinds ≡ numbered_kinds (recs_in reader.now.site) (place_in reader.now.site) (rec_in reader.now.site) n k row.now) }
{
    if u32::from(row.number) != n {
        return Ok(None);
    }
    let token = token_of(table::GENERIC_PARAM, k as usize)?;
    let kinds = kinds_at(alloc, reader, token)?;
    Ok(Some(with_new(row, kinds)))
}

/// The kinds of the row in a place of GenericParam, from 0, if it has a number.
fn numbered_at(alloc: Global, reader: &Reader<'_>, n: u32, k: u32) -> Result<Option<u32>, NoMemory>
    requires { IsReader reader.now }
    ensures { IfOk result (λ kinds. listed kinds ≡ numbered_at (recs_in reader.now.site) (place_in reader.now.site) (rec_in reader.now.site) n k) }
{
    match reader.site.asm.scope.rec.generic_param.get(k as usize) {
        Some(row) => numbered_kinds(alloc, reader, n, k, row),
        None => Ok(None),
    }
}

/// The kinds of the first of these rows of GenericParam, from 0, that has a number; 0 without one.
fn first_numbered(alloc: Global, reader: &Reader<'_>, n: u32, rows: &[u32]) -> Result<u32, NoMemory>
    requires { IsReader reader.now }
    ensures { IfOk result (λ kinds. kinds ≡ or_zero (flat_map (numbered_at (recs_in reader.now.site) (place_in reader.now.site) (rec_in reader.now.site) n) rows.now)) }
{
    for k in rows {
        match numbered_at(alloc, reader, n, *k) {
            Ok(Some(kinds)) => return Ok(kinds),
            Ok(None) => {}
            Err(error) => return Err(error),
        }
    }
    Ok(0)
}

/// The kinds of a generic parameter of a type or a method, which is a row of this table.
pub(crate) fn generic_kinds<'a>(
    alloc: Global,
    marker: &'a Marker<'a>,
    tables: &'a AttributeTables<'a>,
    at: RowAt,
    table: u8,
    n: u32,
) -> Result<u32, NoMemory>
    requires marker { IsMarker marker.now }
    requires tables { AreAttributeTables marker.now tables.now }
    ensures { IfOk result (λ kinds. kinds ≡ generic_kinds (all_of marker.now) at table n) }
{
    let Some(asm) = marker.assembly_at(at.asm) else {
        return Ok(0);
    };
    let owner = token_of(table, at.row as usize)?;
    let reader = reader_of(marker, tables, asm, at.asm)?;
    let rows = reader.site.asm.owners.params.rows_with(owner);
    let kinds = first_numbered(alloc, &reader, n, rows)?;
    Ok(kinds)
}
