//! What the owner of a member is met as.

ghost use Rattle.std.specs.Prelude.{◌≡◌, ◌++◌, OnOk};
ghost use Rattle.mark_parts.specs.mark_tables.Assemblies.{all_of};
ghost use Rattle.rules.specs.merge_rules.Refs.{types_of_owner, types_of_method, types_of_field, types_of_met};
ghost use Rattle.token_keys.specs.key_codes.Keys as coded;
ghost use Rattle.token_keys.specs.met_forms.Told.{met_told};
ghost use Rattle.token_keys.specs.world_keys.Keys.{IsWorldKeys};
ghost use Rattle.restrict.specs.reference_types.Types.{own_types, own_field_types};

use il_base::world_model::TypeExpr;
use il_base::{FieldId, MethodId, NoMemory, TypeId};
use reference_rows::own_members::fields::{field_at, own_field_sig};
use reference_rows::own_members::methods::{method_at, own_method_sig};
use std::alloc::Global;
use token_keys::key_codes::keys::{FieldKey, InstanceKey, MethodKey, TypeKey};
use token_keys::key_types::types::{push_of_key, push_of_method_sig, push_of_sig, push_of_sigs};
use token_keys::met_forms::Met;
use token_keys::types::expr_key;
use token_keys::world_keys::WorldKeys;

/// Puts the types of an owner at the end.
fn push_of_owner(
    alloc: Global,
    world: &WorldKeys<'_>,
    owner: &TypeExpr,
    types: &mut Vec<TypeId>,
) -> Result<(), NoMemory>
    requires { IsWorldKeys world.now }
    ensures { OnOk result (types.new.items ≡ types.old.items ++ types_of_owner (all_of world.now.marker.now) owner.now) }
{
    let marker = world.marker;
    match expr_key(alloc, &marker.tables, owner) {
        Ok(Some(key)) => {
            push_of_key(alloc, &key, types)?;
            Ok(())
        }
        Ok(None) => Ok(()),
        Err(error) => Err(error),
    }
}

/// Puts the types of a method's own signature at the end.
fn push_own(
    alloc: Global,
    world: &WorldKeys<'_>,
    id: MethodId,
    types: &mut Vec<TypeId>,
) -> Result<(), NoMemory>
    requires { IsWorldKeys world.now }
    ensures { OnOk result (types.new.items ≡ types.old.items ++ own_types (all_of world.now.marker.now) id) }
{
    let marker = world.marker;
    let recs = marker.tables.world.recs.as_slice();
    let found = method_at(recs, id)?;
    let Some(at) = found else {
        return Ok(());
    };
    match own_method_sig(alloc, recs, world.numbers, at) {
        Ok(Some(sig)) => {
            push_of_method_sig(alloc, &sig, types)?;
            Ok(())
        }
        Ok(None) => Ok(()),
        Err(error) => Err(error),
    }
}

/// Puts the types of a field's own signature at the end.
fn push_own_field(
    alloc: Global,
    world: &WorldKeys<'_>,
    id: FieldId,
    types: &mut Vec<TypeId>,
) -> Result<(), NoMemory>
    requires { IsWorldKeys world.now }
    ensures { OnOk result (types.new.items ≡ types.old.items ++ own_field_types (all_of world.now.marker.now) id) }
{
    let marker = world.marker;
    let recs = marker.tables.world.recs.as_slice();
    let found = field_at(recs, id)?;
    let Some(at) = found else {
        return Ok(());
    };
    match own_field_sig(alloc, recs, world.numbers, at) {
        Ok(Some(sig)) => {
            push_of_sig(alloc, &sig, types)?;
            Ok(())
        }
        Ok(None) => Ok(()),
        Err(error) => Err(error),
    }
}

/// Puts the types of a method at the end: those of its owner or parent, then those of its signature. A method that is named by its own
/// token has none.
fn push_of_method(
    alloc: Global,
    world: &WorldKeys<'_>,
    key: &MethodKey,
    types: &mut Vec<TypeId>,
) -> Result<(), NoMemory>
    requires { IsWorldKeys world.now }
    ensures { OnOk result (types.new.items ≡ types.old.items ++ types_of_method (all_of world.now.marker.now) (coded.method_key key.now)) }
{
    match key {
        MethodKey::Own(_) => Ok(()),
        MethodKey::Found(id, owner) => {
            push_of_owner(alloc, world, owner, types)?;
            push_own(alloc, world, *id, types)?;
            Ok(())
        }
        MethodKey::Absent(method) => {
            push_of_key(alloc, &method.parent, types)?;
            push_of_method_sig(alloc, &method.signature, types)?;
            Ok(())
        }
    }
}

/// Puts the types of a field at the end: those of its owner, then those of its signature.
fn push_of_field(
    alloc: Global,
    world: &WorldKeys<'_>,
    key: &FieldKey,
    types: &mut Vec<TypeId>,
) -> Result<(), NoMemory>
    requires { IsWorldKeys world.now }
    ensures { OnOk result (types.new.items ≡ types.old.items ++ types_of_field (all_of world.now.marker.now) (coded.field_key key.now)) }
{
    match key {
        FieldKey::Own(_) => Ok(()),
        FieldKey::Found(id, owner) => {
            push_of_owner(alloc, world, owner, types)?;
            push_own_field(alloc, world, *id, types)?;
            Ok(())
        }
    }
}

/// Puts the types of what is met at the end.
pub(crate) fn push_of_met(
    alloc: Global,
    world: &WorldKeys<'_>,
    met: &Met,
    types: &mut Vec<TypeId>,
) -> Result<(), NoMemory>
    requires { IsWorldKeys world.now }
    ensures { OnOk result (types.new.items ≡ types.old.items ++ types_of_met (all_of world.now.marker.now) (met_told met.now)) }
{
    match met {
        Met::Type(key) => {
            push_of_key(alloc, key, types)?;
            Ok(())
        }
        Met::Sig(sig) => {
            push_of_sig(alloc, sig, types)?;
            Ok(())
        }
        Met::Method(key) => {
            push_of_method(alloc, world, key, types)?;
            Ok(())
        }
        Met::Field(key) => {
            push_of_field(alloc, world, key, types)?;
            Ok(())
        }
        Met::Instance(key) => {
            push_of_method(alloc, world, &key.method, types)?;
            push_of_sigs(alloc, key.args.as_slice(), types)?;
            Ok(())
        }
        Met::Locals(sigs) => {
            push_of_sigs(alloc, sigs.as_slice(), types)?;
            Ok(())
        }
    }
}
