//! Keys of methods, fields and methods with arguments.

ghost use Rattle.std.specs.Prelude.{◌≡◌, ◌==◌, ◌||◌, slice_get, IfOk};
ghost use Rattle.std.specs.List.{list_any};
ghost use Rattle.std.specs.Option.{option_copied, option_map, option_and_then};
ghost use Rattle.il_base.specs.declared.table.TheConstants.{METHOD_SPEC};
ghost use Rattle.il_base.specs.world_model.Tokens.{index_in};
ghost use Rattle.rules.specs.link_rules.Members.{type_home, owner_of, param_count};
ghost use Rattle.rules.specs.link_rules.Cycles.{listed};
ghost use Rattle.rules.specs.type_rules.Rows.{rec_at};
ghost use Rattle.rules.specs.mark_rules.Naming.{method_named, field_named};
ghost use Rattle.mark_parts.specs.mark_tables.Assemblies.{all_of, IsMarker};
ghost use Rattle.il_base.specs.declared.world_model.expr.TypeExpr.{out-TypeExpr};
ghost use Rattle.rules.specs.merge_rules.Keys.{good, is_bare_in, is_plain_input, is_plain_owner, method_key_of, field_key_of, method_key, field_key, instance_by, instance_key};
ghost use Rattle.token_keys.specs.key_codes.Keys as coded;
ghost use Rattle.token_keys.specs.Keys.{IsKeys, recs_of, place_of, rec_of};
ghost use Rattle.token_keys.specs.Instances.{made_instance};

use crate::key_codes::keys::{FieldKey, InstanceKey, MethodKey};
use crate::keys::Keys;
use crate::sigs::world_sigs;
use il_base::world_model::{
    AsmRec, FieldUse, Known, MethodSpecRow, MethodUse, TypeExpr, index_in, table_of, token_of,
};
use il_base::{NoMemory, table};
use mark_parts::mark_tables::marker::Marker;
use mark_parts::tokens::{field_link, method_link};
use rules::link_rules::RowAt;
use std::alloc::Global;
use type_tables::member_search::bases::definition;

/// Whether a type is there and has no generic parameters (II.22.20).
fn is_plain(marker: &Marker<'_>, at: RowAt) -> Result<bool, NoMemory>
    requires { IsMarker marker.now }
    ensures { IfOk result (λ is. is ≡ list_any (λ (rec : AsmRec). param_count rec at.row == 0) (listed (rec_at (all_of marker.now) at))) }
{
    let Some(asm) = marker.assembly_at(at.asm) else {
        return Ok(false);
    };
    let token = token_of(table::TYPE_DEF, at.row as usize)?;
    Ok(asm.owners.params.rows_with(token).len() == 0)
}

/// Whether a type is an input's and isn't generic.
fn is_plain_input(marker: &Marker<'_>, owner: Option<RowAt>) -> Result<bool, NoMemory>
    requires { IsMarker marker.now }
    ensures { IfOk result (λ is. is ≡ is_plain_input (all_of marker.now) owner) }
{
    let Some(at) = owner else {
        return Ok(false);
    };
    if at.asm as usize + 1 >= marker.tables.world.recs.len() {
        return Ok(false);
    }
    let is = is_plain(marker, at)?;
    Ok(is)
}

/// Whether a type isn't written with type arguments.
fn is_bare(owner: &TypeExpr) -> bool
    ensures { result ≡ is_bare_in (out-TypeExpr owner.now) }
{
    match owner {
        TypeExpr::Inst(_, _) => false,
        TypeExpr::Prim(_)
        | TypeExpr::Def(_)
        | TypeExpr::Array(_)
        | TypeExpr::ByRef(_)
        | TypeExpr::Var(_)
        | TypeExpr::MVar(_)
        | TypeExpr::Mod { .. } => true,
    }
}

/// Whether an owner is a type of an input that isn't generic, and is written so.
fn is_plain_owner(marker: &Marker<'_>, owner: &TypeExpr) -> Result<bool, NoMemory>
    requires { IsMarker marker.now }
    ensures { IfOk result (λ is. is ≡ is_plain_owner (all_of marker.now) owner.now) }
{
    if !is_bare(owner) {
        return Ok(false);
    }
    let home = definition(marker.tables.world.recs.as_slice(), owner)?;
    let is = is_plain_input(marker, home)?;
    Ok(is)
}

/// Whether a member of an owner is named by its own row: where it is named by its own token, or the owner is an input's and isn't
/// generic.
fn is_own(marker: &Marker<'_>, own: bool, owner: &TypeExpr) -> Result<bool, NoMemory>
    requires { IsMarker marker.now }
    ensures { IfOk result (λ is. is ≡ (own || is_plain_owner (all_of marker.now) owner.now)) }
{
    if own {
        return Ok(true);
    }
    let is = is_plain_owner(marker, owner)?;
    Ok(is)
}

/// The key of a method that a token names; `own` says whether it is a MethodDef token.
fn method_key_of(
    alloc: Global,
    marker: &Marker<'_>,
    own: bool,
    used: &MethodUse,
) -> Result<MethodKey, NoMemory>
    requires { IsMarker marker.now }
    ensures { IfOk result (λ k. coded.method_key k ≡ method_key_of (all_of marker.now) own used.now) }
{
    let is = is_own(marker, own, &used.owner)?;
    if is {
        return Ok(MethodKey::Own(used.method));
    }
    let owner = used.owner.copy(alloc)?;
    Ok(MethodKey::Found(used.method, owner))
}

/// The key of a field that a token names; `own` says whether it is a Field token.
fn field_key_of(
    alloc: Global,
    marker: &Marker<'_>,
    own: bool,
    used: &FieldUse,
) -> Result<FieldKey, NoMemory>
    requires { IsMarker marker.now }
    ensures { IfOk result (λ k. coded.field_key k ≡ field_key_of (all_of marker.now) own used.now) }
{
    let is = is_own(marker, own, &used.owner)?;
    if is {
        return Ok(FieldKey::Own(used.field));
    }
    let owner = used.owner.copy(alloc)?;
    Ok(FieldKey::Found(used.field, owner))
}

/// The method that a MethodDef, MemberRef or MethodSpec token names.
fn method_named<'a>(keys: &Keys<'a>, token: u32) -> Option<&'a MethodUse>
    requires { IsKeys keys.now }
    ensures { option_copied result ≡ good (method_named (recs_of keys.now) (place_of keys.now) (rec_of keys.now) token) }
{
    match method_link(&keys.asm, token) {
        None => None,
        Some(Known::Good(used)) => Some(used),
        Some(Known::Bad(_)) => None,
    }
}

/// The field that a Field or MemberRef token names.
fn field_named<'a>(keys: &Keys<'a>, token: u32) -> Option<&'a FieldUse>
    requires { IsKeys keys.now }
    ensures { option_copied result ≡ good (field_named (recs_of keys.now) (place_of keys.now) (rec_of keys.now) token) }
{
    match field_link(&keys.asm, token) {
        None => None,
        Some(Known::Good(used)) => Some(used),
        Some(Known::Bad(_)) => None,
    }
}

/// The key of the method that a MethodDef, MemberRef or MethodSpec token names, without its arguments; None where it names none.
#[tactic(auto, unfolding(rules::specs::merge_rules::Keys::method_key))]
pub fn method_key(alloc: Global, keys: &Keys<'_>, token: u32) -> Result<Option<MethodKey>, NoMemory>
    requires { IsKeys keys.now }
    ensures { IfOk result (λ k. option_map coded.method_key k ≡ method_key (recs_of keys.now) (place_of keys.now) (rec_of keys.now) token) }
{
    match method_named(keys, token) {
        None => Ok(None),
        Some(used) => {
            let own = table_of(token) == table::METHOD_DEF;
            let key = method_key_of(alloc, keys.marker, own, used)?;
            Ok(Some(key))
        }
    }
}

/// The key of the field that a Field or MemberRef token names; None where it names none.
#[tactic(auto, unfolding(rules::specs::merge_rules::Keys::field_key))]
pub fn field_key(alloc: Global, keys: &Keys<'_>, token: u32) -> Result<Option<FieldKey>, NoMemory>
    requires { IsKeys keys.now }
    ensures { IfOk result (λ k. option_map coded.field_key k ≡ field_key (recs_of keys.now) (place_of keys.now) (rec_of keys.now) token) }
{
    match field_named(keys, token) {
        None => Ok(None),
        Some(used) => {
            let own = table_of(token) == table::FIELD;
            let key = field_key_of(alloc, keys.marker, own, used)?;
            Ok(Some(key))
        }
    }
}

/// The row of MethodSpec that a token names (II.22.29).
fn instance_row(rec: &AsmRec, token: u32) -> Option<&MethodSpecRow>
    ensures { option_copied result ≡ option_and_then (slice_get rec.now.method_spec) (index_in METHOD_SPEC token) }
{
    match index_in(table::METHOD_SPEC, token) {
        None => None,
        Some(k) => rec.method_spec.get(k as usize),
    }
}

/// The key of a row of MethodSpec, where its method is known.
fn with_arguments(
    alloc: Global,
    keys: &Keys<'_>,
    row: &MethodSpecRow,
    method: MethodKey,
) -> Result<Option<InstanceKey>, NoMemory>
    requires { IsKeys keys.now }
    ensures { IfOk result (λ k. option_map coded.instance_key k ≡ made_instance (recs_of keys.now) (place_of keys.now) (rec_of keys.now) row.now (coded.method_key method)) }
{
    match &row.instantiation {
        Known::Bad(_) => {
            drop(method);
            Ok(None)
        }
        Known::Good(sigs) => {
            let args = world_sigs(alloc, keys, sigs.as_slice())?;
            Ok(Some(InstanceKey { method, args }))
        }
    }
}

/// The key of a row of MethodSpec.
fn instance_by(
    alloc: Global,
    keys: &Keys<'_>,
    row: &MethodSpecRow,
) -> Result<Option<InstanceKey>, NoMemory>
    requires { IsKeys keys.now }
    ensures { IfOk result (λ k. option_map coded.instance_key k ≡ instance_by (recs_of keys.now) (place_of keys.now) (rec_of keys.now) row.now) }
{
    match method_key(alloc, keys, row.method) {
        Ok(Some(method)) => with_arguments(alloc, keys, row, method),
        Ok(None) => Ok(None),
        Err(error) => Err(error),
    }
}

/// The key of the method with arguments that a MethodSpec token names; None where it names none.
#[tactic(auto, unfolding(rules::specs::merge_rules::Keys::instance_key))]
pub fn instance_key(
    alloc: Global,
    keys: &Keys<'_>,
    token: u32,
) -> Result<Option<InstanceKey>, NoMemory>
    requires { IsKeys keys.now }
    ensures { IfOk result (λ k. option_map coded.instance_key k ≡ instance_key (recs_of keys.now) (place_of keys.now) (rec_of keys.now) token) }
{
    match instance_row(keys.asm.scope.rec, token) {
        None => Ok(None),
        Some(row) => instance_by(alloc, keys, row),
    }
}
