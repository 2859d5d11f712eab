//! The kinds of members that annotations name.

ghost use Rattle.std.specs.Prelude.{◌≡◌, take, IfOk};
ghost use Rattle.std.specs.List.{flat_map};
ghost use Rattle.std.specs.Option.{option_copied};
ghost use Rattle.attr_blobs.specs.declared.value.Arg.{out-Arg};
ghost use Rattle.rules.specs.link_rules.Cycles.{listed};
ghost use Rattle.rules.specs.mark_rules.Attributes as attributes;
ghost use Rattle.rules.specs.mark_rules.Attributes.{head_of};
ghost use Rattle.rules.specs.mark_rules.Annotations.{number_in, first_number, or_zero, kinds_at};
ghost use Rattle.attribute_values.specs.attribute_kinds.Sites.{recs_in, place_in, rec_in, IsSite};
ghost use Rattle.attribute_values.specs.Readers.{IsReader};
ghost use Rattle.attribute_values.specs.trimming_attributes.Kinds.{annotation_at, kinds_in};

use crate::attribute_kinds::site::Site;
use crate::attribute_rows::rows::rows_of_token;
use crate::reader::Reader;
use crate::trimming_attributes::names::is_dynamically_accessed;
use crate::values::value_of;
use attr_blobs::{Arg, AttrValue};
use il_base::NoMemory;
use il_base::world_model::CustomAttributeRow;
use std::alloc::Global;

/// How many values the low 32 bits have.
const LOW_BITS: u64 = 0x1_0000_0000;

/// The low 32 bits of a number.
fn number_in(arg: &Arg) -> Option<u32>
    ensures { listed result ≡ number_in (out-Arg arg.now) }
{
    match arg {
        Arg::Number(n) => Some((*n % LOW_BITS) as u32),
        Arg::Text(_) => None,
        Arg::Typ(_) => None,
        Arg::Boxed(_, _) => None,
        Arg::List(_) => None,
    }
}

/// The first of these arguments as a number, by its low 32 bits.
#[tactic(auto, using(crate::proofs::lemmas::trimming_attributes::Lists::none_more))]
fn first_in(args: &[Arg]) -> Option<u32>
    ensures { listed result ≡ flat_map (λ x. number_in (out-Arg x)) (take 1 args.now) }
{
    match args {
        [] => None,
        [arg, ..] => number_in(arg),
    }
}

/// The first of the constructor's arguments as a number, by its low 32 bits.
pub fn first_number(v: &AttrValue) -> Option<u32>
    ensures { listed result ≡ first_number v.now }
{
    first_in(v.fixed.as_slice())
}

/// A number, or 0.
fn or_zero(n: Option<u32>) -> u32
    ensures { result ≡ or_zero (listed n) }
{
    match n {
        Some(n) => n,
        None => 0,
    }
}

/// The kinds that an annotation names; 0 where it has no reading, or its first argument is no number.
#[tactic(auto, using(crate::proofs::lemmas::trimming_attributes::Lists::none_more))]
fn kinds_of_row(
    alloc: Global,
    reader: &Reader<'_>,
    row: &CustomAttributeRow,
) -> Result<u32, NoMemory>
    requires { IsReader reader.now }
    ensures { IfOk result (λ n. n ≡ or_zero (kinds_in (recs_in reader.now.site) (place_in reader.now.site) (rec_in reader.now.site) row.now)) }
{
    match value_of(alloc, reader, row) {
        Ok(Some(v)) => Ok(or_zero(first_number(&v))),
        Ok(None) => Ok(0),
        Err(error) => Err(error),
    }
}

/// The row in a place, from 0, if it is an annotation.
fn annotation_at<'a>(site: &Site<'a>, k: u32) -> Result<Option<&'a CustomAttributeRow>, NoMemory>
    requires { IsSite site.now }
    ensures { IfOk result (λ row. listed (option_copied row) ≡ annotation_at (rec_in site.now) k) }
{
    match site.asm.scope.rec.custom_attribute.get(k as usize) {
        None => Ok(None),
        Some(row) => {
            let is = is_dynamically_accessed(site, row)?;
            if is {
                return Ok(Some(row));
            }
            Ok(None)
        }
    }
}

/// The kinds of the first annotation among rows, by their places from 0.
fn kinds_of_first(alloc: Global, reader: &Reader<'_>, rows: &[u32]) -> Result<u32, NoMemory>
    requires { IsReader reader.now }
    ensures { IfOk result (λ n. n ≡ or_zero (flat_map (kinds_in (recs_in reader.now.site) (place_in reader.now.site) (rec_in reader.now.site)) (listed (head_of (flat_map (annotation_at (rec_in reader.now.site)) rows.now))))) }
{
    for k in rows {
        match annotation_at(&reader.site, *k) {
            Ok(Some(row)) => return kinds_of_row(alloc, reader, row),
            Ok(None) => {}
            Err(error) => return Err(error),
        }
    }
    Ok(0)
}

/// The kinds of the first annotation of a row, by its token; 0 where it has none.
pub fn kinds_at(alloc: Global, reader: &Reader<'_>, token: u32) -> Result<u32, NoMemory>
    requires { IsReader reader.now }
    ensures { IfOk result (λ n. n ≡ kinds_at (recs_in reader.now.site) (place_in reader.now.site) (rec_in reader.now.site) token) }
{
    let rows = rows_of_token(&reader.site.asm, token);
    let n = kinds_of_first(alloc, reader, rows)?;
    Ok(n)
}
