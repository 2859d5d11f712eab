//! Constructors, by their tokens.

ghost use Rattle.std.specs.Prelude.{◌≡◌, slice_get, IfOk};
ghost use Rattle.std.specs.List.{list_any};
ghost use Rattle.std.specs.Option.{option_copied, option_map, option_and_then};
ghost use Rattle.il_base.specs.declared.table.TheConstants.{MEMBER_REF};
ghost use Rattle.il_base.specs.world_model.Tokens.{index_in};
ghost use Rattle.il_base.specs.world_model.Worlds.{known_or};
ghost use Rattle.rules.specs.link_rules.Types.{or_else};
ghost use Rattle.rules.specs.link_rules.Cycles.{listed};
ghost use Rattle.resolver.specs.type_links.Index.{IsIndex};
ghost use Rattle.rules.specs.mark_rules.Attributes.{is_input_method};
ghost use Rattle.rules.specs.mark_rules.Naming.{method_named};
ghost use Rattle.rules.specs.merge_rules.Keys.{good, method_key};
ghost use Rattle.rules.specs.merge_rules.Attributes.{absent_constructor, copied_constructor, is_in_input, constructor_key};
ghost use Rattle.token_keys.specs.key_codes.Keys as coded;
ghost use Rattle.token_keys.specs.Keys.{IsKeys, recs_of, place_of, rec_of};

use crate::constructor_keys::absent::absent_constructor;
use il_base::world_model::{AsmRec, Known, MemberRefRow, MethodUse, index_in};
use il_base::{Item, NoMemory, table};
use mark_parts::mark_facts::rows::is_core;
use mark_parts::tokens::method_link;
use resolver::type_links::TypeIndex;
use std::alloc::Global;
use token_keys::copied_attributes::copied::is_copied;
use token_keys::key_codes::keys::MethodKey;
use token_keys::keys::Keys;
use token_keys::members::method_key;

/// Whether a method is in an input.
fn is_input_method(recs: &[AsmRec], used: &MethodUse) -> Result<bool, NoMemory>
    ensures { IfOk result (λ is. is ≡ is_input_method recs.now used.now) }
{
    let core = is_core(recs, Item::Method(used.method))?;
    Ok(!core)
}

/// The link of a constructor's token.
fn constructor_link<'a>(keys: &Keys<'a>, token: u32) -> Option<&'a Known<MethodUse>>
    requires { IsKeys keys.now }
    ensures { known_or (option_copied result) ≡ method_named (recs_of keys.now) (place_of keys.now) (rec_of keys.now) token }
{
    let link = method_link(&keys.asm, token);
    link
}

/// Whether the constructor that a token names is in an input.
fn is_in_input(keys: &Keys<'_>, token: u32) -> Result<bool, NoMemory>
    requires { IsKeys keys.now }
    ensures { IfOk result (λ is. is ≡ is_in_input (recs_of keys.now) (place_of keys.now) (rec_of keys.now) token) }
{
    let marker = keys.marker;
    match constructor_link(keys, token) {
        None => Ok(false),
        Some(Known::Bad(_)) => Ok(false),
        Some(Known::Good(used)) => {
            let is = is_input_method(marker.tables.world.recs.as_slice(), used)?;
            Ok(is)
        }
    }
}

/// The row of MemberRef that a token names (II.22.25).
fn member_row(rec: &AsmRec, token: u32) -> Option<&MemberRefRow>
    ensures { option_copied result ≡ option_and_then (slice_get rec.now.member_ref) (index_in MEMBER_REF token) }
{
    match index_in(table::MEMBER_REF, token) {
        None => None,
        Some(k) => rec.member_ref.get(k as usize),
    }
}

/// The key of a constructor that is in no input and is copied: of the method that it names, or of one that names nothing.
fn reference_key(
    alloc: Global,
    keys: &Keys<'_>,
    token: u32,
    row: &MemberRefRow,
) -> Result<Option<MethodKey>, NoMemory>
    requires { IsKeys keys.now }
    ensures { IfOk result (λ k. option_map coded.method_key k ≡ or_else (method_key (recs_of keys.now) (place_of keys.now) (rec_of keys.now) token) (absent_constructor (recs_of keys.now) (place_of keys.now) (rec_of keys.now) row.now)) }
{
    match method_key(alloc, keys, token) {
        Ok(Some(key)) => Ok(Some(key)),
        Ok(None) => absent_constructor(alloc, keys, row),
        Err(error) => Err(error),
    }
}

/// The key of a constructor that is in no input, where the attribute is copied; None where it is left out.
fn copied_key(
    alloc: Global,
    keys: &Keys<'_>,
    index: &TypeIndex<'_>,
    token: u32,
    row: &MemberRefRow,
) -> Result<Option<MethodKey>, NoMemory>
    requires keys { IsKeys keys.now }
    requires index { IsIndex index.now }
    requires same { index.now.all.now ≡ recs_of keys.now }
    ensures { IfOk result (λ k. option_map coded.method_key k ≡ copied_constructor (recs_of keys.now) (place_of keys.now) (rec_of keys.now) token row.now) }
{
    let copied = is_copied(alloc, index, keys.asm.scope.asm, keys.asm.scope.rec, row)?;
    if !copied {
        return Ok(None);
    }
    reference_key(alloc, keys, token, row)
}

/// The key of a constructor that is in no input; None where the attribute is left out.
fn other_key(
    alloc: Global,
    keys: &Keys<'_>,
    index: &TypeIndex<'_>,
    token: u32,
) -> Result<Option<MethodKey>, NoMemory>
    requires keys { IsKeys keys.now }
    requires index { IsIndex index.now }
    requires same { index.now.all.now ≡ recs_of keys.now }
    ensures { IfOk result (λ k. option_map coded.method_key k ≡ option_and_then (copied_constructor (recs_of keys.now) (place_of keys.now) (rec_of keys.now) token) (option_and_then (slice_get (rec_of keys.now).member_ref) (index_in MEMBER_REF token))) }
{
    match member_row(keys.asm.scope.rec, token) {
        None => Ok(None),
        Some(row) => copied_key(alloc, keys, index, token, row),
    }
}

/// The key of the constructor of an attribute as the output names it, by its MethodDef or MemberRef token; None where the attribute is
/// left out. `index` is that of the assemblies of the world.
#[tactic(auto, unfolding(rules::specs::merge_rules::Attributes::constructor_key))]
pub fn constructor_key(
    alloc: Global,
    keys: &Keys<'_>,
    index: &TypeIndex<'_>,
    token: u32,
) -> Result<Option<MethodKey>, NoMemory>
    requires keys { IsKeys keys.now }
    requires index { IsIndex index.now }
    requires same { index.now.all.now ≡ recs_of keys.now }
    ensures { IfOk result (λ k. option_map coded.method_key k ≡ constructor_key (recs_of keys.now) (place_of keys.now) (rec_of keys.now) token) }
{
    let input = is_in_input(keys, token)?;
    if input {
        return method_key(alloc, keys, token);
    }
    other_key(alloc, keys, index, token)
}
