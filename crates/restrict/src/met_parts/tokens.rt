//! What tokens refer to.

ghost use Rattle.std.specs.Prelude.{◌≡◌, ◌++◌, map, OnOk};
ghost use Rattle.rules.specs.link_rules.Cycles.{listed};
ghost use Rattle.rules.specs.merge_rules.Keys.{method_key, field_key, instance_key};
ghost use Rattle.rules.specs.merge_rules.Order.{met_method, met_instance, met_token, met_callee, met_field_token, met_any};
ghost use Rattle.token_keys.specs.Keys.{IsKeys, recs_of, place_of, rec_of};

use il_base::world_model::table_of;
use il_base::{NoMemory, table};
use mark_parts::bodies::{is_field_token, is_method_token};
use std::alloc::Global;
use token_keys::keys::Keys;
use token_keys::members::{field_key, instance_key, method_key};
use token_keys::met_forms::Mets;
use token_keys::types::type_key;

/// Meets the type that a TypeDef, TypeRef or TypeSpec token names; 0 names none.
#[tactic(auto, using(crate::proofs::lemmas::met_parts::Lists::none_more))]
pub fn meet_type(
    alloc: Global,
    keys: &Keys<'_>,
    token: u32,
    mets: &mut Mets,
) -> Result<(), NoMemory>
    requires { IsKeys keys.now }
    ensures { OnOk result (mets.new ≡ mets.old ++ met_token (recs_of keys.now) (place_of keys.now) (rec_of keys.now) token) }
{
    if token == 0 {
        return Ok(());
    }
    match type_key(alloc, keys, token) {
        Ok(Some(key)) => mets.push_type(key),
        Ok(None) => Ok(()),
        Err(error) => Err(error),
    }
}

/// Meets the method with arguments that a MethodSpec token names.
#[tactic(auto, using(crate::proofs::lemmas::met_parts::Lists::none_more))]
fn meet_instance(
    alloc: Global,
    keys: &Keys<'_>,
    token: u32,
    mets: &mut Mets,
) -> Result<(), NoMemory>
    requires { IsKeys keys.now }
    ensures { OnOk result (mets.new ≡ mets.old ++ map met_instance (listed (instance_key (recs_of keys.now) (place_of keys.now) (rec_of keys.now) token))) }
{
    match instance_key(alloc, keys, token) {
        Ok(Some(key)) => mets.push_instance(key),
        Ok(None) => Ok(()),
        Err(error) => Err(error),
    }
}

/// Meets the method that a MethodDef or MemberRef token names.
#[tactic(auto, using(crate::proofs::lemmas::met_parts::Lists::none_more))]
fn meet_method(alloc: Global, keys: &Keys<'_>, token: u32, mets: &mut Mets) -> Result<(), NoMemory>
    requires { IsKeys keys.now }
    ensures { OnOk result (mets.new ≡ mets.old ++ map met_method (listed (method_key (recs_of keys.now) (place_of keys.now) (rec_of keys.now) token))) }
{
    match method_key(alloc, keys, token) {
        Ok(Some(key)) => mets.push_method(key),
        Ok(None) => Ok(()),
        Err(error) => Err(error),
    }
}

/// Meets the method that a MethodDef, MemberRef or MethodSpec token names.
pub fn meet_callee(
    alloc: Global,
    keys: &Keys<'_>,
    token: u32,
    mets: &mut Mets,
) -> Result<(), NoMemory>
    requires { IsKeys keys.now }
    ensures { OnOk result (mets.new ≡ mets.old ++ met_callee (recs_of keys.now) (place_of keys.now) (rec_of keys.now) token) }
{
    if table_of(token) == table::METHOD_SPEC {
        return meet_instance(alloc, keys, token, mets);
    }
    meet_method(alloc, keys, token, mets)
}

/// Meets the field that a Field or MemberRef token names.
#[tactic(auto, using(crate::proofs::lemmas::met_parts::Lists::none_more))]
pub fn meet_field(
    alloc: Global,
    keys: &Keys<'_>,
    token: u32,
    mets: &mut Mets,
) -> Result<(), NoMemory>
    requires { IsKeys keys.now }
    ensures { OnOk result (mets.new ≡ mets.old ++ met_field_token (recs_of keys.now) (place_of keys.now) (rec_of keys.now) token) }
{
    match field_key(alloc, keys, token) {
        Ok(Some(key)) => mets.push_field(key),
        Ok(None) => Ok(()),
        Err(error) => Err(error),
    }
}

/// Meets what the operand of `ldtoken` names (III.4.17): a type, a field or a method.
pub fn meet_any(alloc: Global, keys: &Keys<'_>, token: u32, mets: &mut Mets) -> Result<(), NoMemory>
    requires { IsKeys keys.now }
    ensures { OnOk result (mets.new ≡ mets.old ++ met_any (recs_of keys.now) (place_of keys.now) (rec_of keys.now) token) }
{
    if is_field_token(keys.asm.scope.rec, token) {
        return meet_field(alloc, keys, token, mets);
    }
    if is_method_token(token) {
        return meet_callee(alloc, keys, token, mets);
    }
    meet_type(alloc, keys, token, mets)
}
