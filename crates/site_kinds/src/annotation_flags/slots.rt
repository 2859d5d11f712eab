//! The kinds of parameters, returns and fields.

ghost use Rattle.std.specs.Prelude.{◌≡◌, ◌-◌, [], ◌∷◌, suc, map, slice_get, IfOk};
ghost use Rattle.std.specs.List.{flat_map, range_with_len};
ghost use Rattle.std.specs.Option.{option_copied};
ghost use Rattle.rules.specs.link_rules.Cycles.{listed};
ghost use Rattle.rules.specs.mark_rules.Attributes.{head_of};
ghost use Rattle.rules.specs.mark_rules.Annotations.{or_zero, param_token, kinds_of_param, slot_kinds, field_kinds, tokens_of_run};
ghost use Rattle.mark_parts.specs.mark_tables.Assemblies.{all_of, IsMarker};
ghost use Rattle.attribute_values.specs.Tables.{AreAttributeTables};
ghost use Rattle.attribute_values.specs.attribute_kinds.Sites.{recs_in, place_in, rec_in};
ghost use Rattle.attribute_values.specs.Readers.{IsReader};
ghost use Rattle.site_kinds.specs.annotation_flags.Slots.{token_here, kinds_of_slot};

use attribute_values::reader::{Reader, reader_of};
use attribute_values::tables::AttributeTables;
use attribute_values::trimming_attributes::kinds::kinds_at;
use il_base::world_model::{AsmRec, MethodDefRow, token_of};
use il_base::{NoMemory, table};
use mark_parts::mark_tables::marker::Marker;
use rules::link_rules::RowAt;
use std::alloc::Global;

/// The token of a row of Param, from 0, if it has this sequence number (II.22.33).
fn token_here(rec: &AsmRec, sequence: u32, k: u32) -> Result<Option<u32>, NoMemory>
    ensures { IfOk result (λ token. listed token ≡ token_here rec.now sequence k) }
{
    let Some(row) = rec.param.get(k as usize) else {
        return Ok(None);
    };
    if u32::from(row.sequence) != sequence {
        return Ok(None);
    }
    let token = token_of(table::PARAM, k as usize)?;
    Ok(Some(token))
}

/// The token of the first row of Param from `start` to before `end`, from 0, with a sequence number.
fn token_between(rec: &AsmRec, sequence: u32, start: u32, end: u32) -> Result<Option<u32>, NoMemory>
    ensures { IfOk result (λ token. token ≡ head_of (flat_map (token_here rec.now sequence) (range_with_len start (end - start)))) }
{
    for k in start..end {
        match token_here(rec, sequence, k) {
            Ok(Some(token)) => return Ok(Some(token)),
            Ok(None) => {}
            Err(error) => return Err(error),
        }
    }
    Ok(None)
}

/// The token of the first row of Param of a method with a sequence number: 0 for what it returns, 1 for the first parameter.
#[tactic(auto, using(attribute_values::proofs::lemmas::attribute_rows::Running::as_long))]
fn param_token(rec: &AsmRec, sequence: u32, m: &MethodDefRow) -> Result<Option<u32>, NoMemory>
    ensures { IfOk result (λ token. token ≡ param_token rec.now sequence m.now) }
{
    let start = m.param_list_first.saturating_sub(1);
    let end = start + m.param_list_end.saturating_sub(m.param_list_first);
    let count = u32::try_from(rec.param.len()).unwrap_or(u32::MAX);
    let token = token_between(rec, sequence, start, end.min(count))?;
    Ok(token)
}

/// The kinds that an annotation of a method's parameter or return names, by its sequence number.
fn kinds_of_slot(
    alloc: Global,
    reader: &Reader<'_>,
    sequence: u32,
    m: &MethodDefRow,
) -> Result<u32, NoMemory>
    requires { IsReader reader.now }
    ensures { IfOk result (λ n. n ≡ kinds_of_slot (recs_in reader.now.site) (place_in reader.now.site) (rec_in reader.now.site) sequence m.now) }
{
    match param_token(reader.site.asm.scope.rec, sequence, m) {
        Ok(Some(token)) => kinds_at(alloc, reader, token),
        Ok(None) => Ok(0),
        Err(error) => Err(error),
    }
}

/// The kinds that an annotation of the parameter or the return of a method in a row, from 0, names, by its sequence number.
#[tactic(auto, using(crate::proofs::lemmas::annotation_flags::Lists::none_more))]
fn kinds_in_row(
    alloc: Global,
    reader: &Reader<'_>,
    sequence: u32,
    row: u32,
) -> Result<u32, NoMemory>
    requires { IsReader reader.now }
    ensures { IfOk result (λ n. n ≡ or_zero (map (kinds_of_slot (recs_in reader.now.site) (place_in reader.now.site) (rec_in reader.now.site) sequence) (listed (slice_get (rec_in reader.now.site).method_def row)))) }
{
    match reader.site.asm.scope.rec.method_def.get(row as usize) {
        Some(m) => kinds_of_slot(alloc, reader, sequence, m),
        None => Ok(0),
    }
}

/// The kinds that an annotation of a method's parameter or return names, by its sequence number.
pub(crate) fn slot_kinds<'a>(
    alloc: Global,
    marker: &'a Marker<'a>,
    tables: &'a AttributeTables<'a>,
    at: RowAt,
    sequence: u32,
) -> Result<u32, NoMemory>
    requires marker { IsMarker marker.now }
    requires tables { AreAttributeTables marker.now tables.now }
    ensures { IfOk result (λ n. n ≡ slot_kinds (all_of marker.now) at sequence) }
{
    let Some(asm) = marker.assembly_at(at.asm) else {
        return Ok(0);
    };
    let reader = reader_of(marker, tables, asm, at.asm)?;
    let n = kinds_in_row(alloc, &reader, sequence, at.row)?;
    Ok(n)
}

/// The kinds that an annotation of a field names.
pub(crate) fn field_kinds<'a>(
    alloc: Global,
    marker: &'a Marker<'a>,
    tables: &'a AttributeTables<'a>,
    at: RowAt,
) -> Result<u32, NoMemory>
    requires marker { IsMarker marker.now }
    requires tables { AreAttributeTables marker.now tables.now }
    ensures { IfOk result (λ n. n ≡ field_kinds (all_of marker.now) at) }
{
    let Some(asm) = marker.assembly_at(at.asm) else {
        return Ok(0);
    };
    let reader = reader_of(marker, tables, asm, at.asm)?;
    let token = token_of(table::FIELD, at.row as usize)?;
    let n = kinds_at(alloc, &reader, token)?;
    Ok(n)
}
