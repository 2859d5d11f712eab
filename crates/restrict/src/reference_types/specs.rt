//! The signatures that have TypeSpec rows (II.22.39).

ghost use Rattle.std.specs.Prelude.{◌≡◌, ◌++◌, map, IfOk, OnOk};
ghost use Rattle.mark_parts.specs.mark_tables.Assemblies.{all_of};
ghost use Rattle.rules.specs.merge_rules.Refs.{spec_of_key, spec_of_method, spec_of_field, specs_of_met, type_specs};
ghost use Rattle.token_keys.specs.key_codes.Keys as coded;
ghost use Rattle.token_keys.specs.met_forms.Told.{met_told};
ghost use Rattle.token_keys.specs.world_keys.Keys.{IsWorldKeys};
ghost use Rattle.restrict.specs.reference_types.Types.{spec_of_owner};

use il_base::world_model::TypeExpr;
use il_base::{NoMemory, Sig};
use std::alloc::Global;
use token_keys::key_codes::keys::{FieldKey, MethodKey, TypeKey};
use token_keys::key_copies::sigs::copy_sig;
use token_keys::met_forms::Met;
use token_keys::met_keys::sigs::MetSigs;
use token_keys::types::expr_key;
use token_keys::world_keys::WorldKeys;

/// Puts the signature of a key at the end.
fn push_spec(alloc: Global, key: &TypeKey, specs: &mut Vec<Sig>) -> Result<(), NoMemory>
    ensures { OnOk result (specs.new.items ≡ specs.old.items ++ spec_of_key (coded.type_key key.now)) }
{
    match key {
        TypeKey::Named(_) => Ok(()),
        TypeKey::Spec(sig) => {
            let copy = copy_sig(alloc, sig)?;
            specs.push(copy)?;
            Ok(())
        }
    }
}

/// Puts the signature of an owner at the end.
fn push_of_owner(
    alloc: Global,
    world: &WorldKeys<'_>,
    owner: &TypeExpr,
    specs: &mut Vec<Sig>,
) -> Result<(), NoMemory>
    requires { IsWorldKeys world.now }
    ensures { OnOk result (specs.new.items ≡ specs.old.items ++ spec_of_owner (all_of world.now.marker.now) owner.now) }
{
    let marker = world.marker;
    match expr_key(alloc, &marker.tables, owner) {
        Ok(Some(key)) => {
            push_spec(alloc, &key, specs)?;
            Ok(())
        }
        Ok(None) => Ok(()),
        Err(error) => Err(error),
    }
}

/// Puts the signature of a method's owner or parent at the end.
fn push_of_method(
    alloc: Global,
    world: &WorldKeys<'_>,
    key: &MethodKey,
    specs: &mut Vec<Sig>,
) -> Result<(), NoMemory>
    requires { IsWorldKeys world.now }
    ensures { OnOk result (specs.new.items ≡ specs.old.items ++ spec_of_method (all_of world.now.marker.now) (coded.method_key key.now)) }
{
    match key {
        MethodKey::Own(_) => Ok(()),
        MethodKey::Found(_, owner) => {
            push_of_owner(alloc, world, owner, specs)?;
            Ok(())
        }
        MethodKey::Absent(method) => {
            push_spec(alloc, &method.parent, specs)?;
            Ok(())
        }
    }
}

/// Puts the signature of a field's owner at the end.
fn push_of_field(
    alloc: Global,
    world: &WorldKeys<'_>,
    key: &FieldKey,
    specs: &mut Vec<Sig>,
) -> Result<(), NoMemory>
    requires { IsWorldKeys world.now }
    ensures { OnOk result (specs.new.items ≡ specs.old.items ++ spec_of_field (all_of world.now.marker.now) (coded.field_key key.now)) }
{
    match key {
        FieldKey::Own(_) => Ok(()),
        FieldKey::Found(_, owner) => {
            push_of_owner(alloc, world, owner, specs)?;
            Ok(())
        }
    }
}

/// Puts the signature at the end that what is met has a row for.
fn push_of_met(
    alloc: Global,
    world: &WorldKeys<'_>,
    met: &Met,
    specs: &mut Vec<Sig>,
) -> Result<(), NoMemory>
    requires { IsWorldKeys world.now }
    ensures { OnOk result (specs.new.items ≡ specs.old.items ++ specs_of_met (all_of world.now.marker.now) (met_told met.now)) }
{
    match met {
        Met::Type(key) => {
            push_spec(alloc, key, specs)?;
            Ok(())
        }
        Met::Sig(_) => Ok(()),
        Met::Method(key) => {
            push_of_method(alloc, world, key, specs)?;
            Ok(())
        }
        Met::Field(key) => {
            push_of_field(alloc, world, key, specs)?;
            Ok(())
        }
        Met::Instance(key) => {
            push_of_method(alloc, world, &key.method, specs)?;
            Ok(())
        }
        Met::Locals(_) => Ok(()),
    }
}

/// The signatures over the types of the world that have TypeSpec rows: those of tokens and of the owners of members, each once, as
/// first met.
#[tactic(auto, unfolding(rules::specs::merge_rules::Refs::type_specs))]
pub fn type_specs(alloc: Global, world: &WorldKeys<'_>, mets: &[Met]) -> Result<MetSigs, NoMemory>
    requires { IsWorldKeys world.now }
    ensures { IfOk result (λ specs. specs ≡ type_specs (all_of world.now.marker.now) (map met_told mets.now)) }
{
    let mut all = Vec::new(alloc);
    for met in mets {
        push_of_met(alloc, world, met, &mut all)?;
    }
    let specs = MetSigs::of(alloc, all)?;
    Ok(specs)
}
