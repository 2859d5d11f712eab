//! Whether a row of CustomAttribute has to be readable and isn't.

ghost use Rattle.std.specs.Prelude.{◌≡◌, ◌&&◌, ◌||◌, not, IfOk};
ghost use Rattle.std.specs.List.{list_any};
ghost use Rattle.std.specs.Option.{option_copied};
ghost use Rattle.il_base.specs.world_model.Worlds.{known_or};
ghost use Rattle.rules.specs.link_rules.Cycles.{listed};
ghost use Rattle.rules.specs.mark_rules.Naming.{method_named};
ghost use Rattle.rules.specs.mark_rules.Attributes.{is_input_method};
ghost use Rattle.rules.specs.mark_rules.Annotations.{first_number};
ghost use Rattle.rules.specs.mark_rules.BadItems.{is_trimming_attribute, is_input_constructor, are_kinds, has_kinds, has_no_reading};
ghost use Rattle.attribute_values.specs.attribute_kinds.Sites.{recs_in, place_in, rec_in, IsSite};
ghost use Rattle.attribute_values.specs.Readers.{IsReader};
ghost use Rattle.bad_items.specs.attribute_flaws.Rows.{has_wrong_kinds, has_to_be_read, is_unread};

use attr_blobs::AttrValue;
use attribute_values::attribute_kinds::site::Site;
use attribute_values::reader::Reader;
use attribute_values::trimming_attributes::kinds::first_number;
use attribute_values::trimming_attributes::names::{
    is_dynamic_dependency, is_dynamically_accessed, is_requires_unreferenced,
};
use attribute_values::values::value_of;
use il_base::world_model::{AsmRec, CustomAttributeRow, Known, MethodUse};
use il_base::{Item, NoMemory};
use mark_parts::mark_facts::rows::is_core;
use mark_parts::tokens::method_link;
use std::alloc::Global;

/// Above the bits of all kinds of members.
const ABOVE_KINDS: u32 = 0x4000;

/// The number with all bits set.
const ALL_BITS: u32 = 0xffff_ffff;

/// Whether a number is a set of kinds of members.
fn are_kinds(n: u32) -> bool
    ensures { result ≡ are_kinds n }
{
    n < ABOVE_KINDS || n == ALL_BITS
}

/// Whether a number is there, and is no set of kinds of members.
fn are_no_kinds(n: Option<u32>) -> bool
    ensures { result ≡ list_any (λ n. not (are_kinds n)) (listed n) }
{
    match n {
        Some(n) => !are_kinds(n),
        None => false,
    }
}

/// Whether the first number of a row's value is a set of kinds of members.
fn has_kinds(site: &Site<'_>, row: &CustomAttributeRow) -> Result<bool, NoMemory>
    requires { IsSite site.now }
    ensures { IfOk result (λ has. has ≡ has_kinds (rec_in site.now) row.now) }
{
    let annotates = is_dynamically_accessed(site, row)?;
    let depends = is_dynamic_dependency(site, row)?;
    Ok(annotates || depends)
}

/// Whether a row is an attribute of trimming.
fn is_trimming_attribute(site: &Site<'_>, row: &CustomAttributeRow) -> Result<bool, NoMemory>
    requires { IsSite site.now }
    ensures { IfOk result (λ is. is ≡ is_trimming_attribute (rec_in site.now) row.now) }
{
    let annotates = is_dynamically_accessed(site, row)?;
    let needs = is_requires_unreferenced(site, row)?;
    let depends = is_dynamic_dependency(site, row)?;
    Ok(annotates || needs || depends)
}

/// The link of a constructor's token.
fn constructor_link<'a>(site: &Site<'a>, token: u32) -> Option<&'a Known<MethodUse>>
    requires { IsSite site.now }
    ensures { known_or (option_copied result) ≡ method_named (recs_in site.now) (place_in site.now) (rec_in site.now) token }
{
    let link = method_link(&site.asm, token);
    link
}

/// Whether a method is in an input.
fn is_input_method(all: &[AsmRec], used: &MethodUse) -> Result<bool, NoMemory>
    ensures { IfOk result (λ is. is ≡ is_input_method all.now used.now) }
{
    let core = is_core(all, Item::Method(used.method))?;
    Ok(!core)
}

/// Whether the constructor of a row is in an input.
fn is_input_constructor(site: &Site<'_>, row: &CustomAttributeRow) -> Result<bool, NoMemory>
    requires { IsSite site.now }
    ensures { IfOk result (λ is. is ≡ is_input_constructor (recs_in site.now) (method_named (recs_in site.now) (place_in site.now) (rec_in site.now) row.now.ctor)) }
{
    let marker = site.marker;
    match constructor_link(site, row.ctor) {
        None => Ok(false),
        Some(Known::Bad(_)) => Ok(false),
        Some(Known::Good(used)) => is_input_method(marker.tables.world.recs.as_slice(), used),
    }
}

/// Whether the first number of a value should be a set of kinds and is none.
fn has_wrong_kinds(
    site: &Site<'_>,
    row: &CustomAttributeRow,
    v: &AttrValue,
) -> Result<bool, NoMemory>
    requires { IsSite site.now }
    ensures { IfOk result (λ has. has ≡ has_wrong_kinds (rec_in site.now) row.now v.now) }
{
    let kinds = has_kinds(site, row)?;
    Ok(kinds && are_no_kinds(first_number(v)))
}

/// Whether a row has no reading, or one with a wrong set of kinds.
fn has_no_reading(
    alloc: Global,
    reader: &Reader<'_>,
    row: &CustomAttributeRow,
) -> Result<bool, NoMemory>
    requires { IsReader reader.now }
    ensures { IfOk result (λ has. has ≡ has_no_reading (recs_in reader.now.site) (place_in reader.now.site) (rec_in reader.now.site) row.now) }
{
    match value_of(alloc, reader, row) {
        Ok(Some(v)) => has_wrong_kinds(&reader.site, row, &v),
        Ok(None) => Ok(true),
        Err(error) => Err(error),
    }
}

/// Whether a row has to be readable.
fn has_to_be_read(site: &Site<'_>, row: &CustomAttributeRow) -> Result<bool, NoMemory>
    requires { IsSite site.now }
    ensures { IfOk result (λ has. has ≡ has_to_be_read (recs_in site.now) (place_in site.now) (rec_in site.now) row.now) }
{
    let trimming = is_trimming_attribute(site, row)?;
    let input = is_input_constructor(site, row)?;
    Ok(trimming || input)
}

/// Whether a row has to be readable and isn't.
pub(crate) fn is_unread(
    alloc: Global,
    reader: &Reader<'_>,
    row: &CustomAttributeRow,
) -> Result<bool, NoMemory>
    requires { IsReader reader.now }
    ensures { IfOk result (λ is. is ≡ is_unread (recs_in reader.now.site) (place_in reader.now.site) (rec_in reader.now.site) row.now) }
{
    let wanted = has_to_be_read(&reader.site, row)?;
    if wanted {
        return has_no_reading(alloc, reader, row);
    }
    Ok(false)
}
