//! The types that have TypeRef rows (II.22.38).

ghost use Rattle.std.specs.Prelude.{◌≡◌, ◌++◌, map, IfOk, OnOk};
ghost use Rattle.std.specs.List.{flat_map};
ghost use Rattle.mark_parts.specs.mark_tables.Assemblies.{all_of};
ghost use Rattle.rules.specs.merge_rules.Refs.{types_of_met, type_refs};
ghost use Rattle.token_keys.specs.met_forms.Told.{met_told};
ghost use Rattle.token_keys.specs.world_keys.Keys.{IsWorldKeys};
ghost use Rattle.reference_rows.specs.reference_scopes.Scopes.{recs_of, IsScopes};
ghost use Rattle.restrict.specs.reference_types.Types.{referred, all_referred};

use crate::reference_types::owners::push_of_met;
use il_base::{NoMemory, TypeId};
use reference_rows::reference_scopes::scopes::Scopes;
use std::alloc::Global;
use token_keys::met_forms::Met;
use token_keys::met_keys::types::MetTypes;
use token_keys::world_keys::WorldKeys;

/// The types of all that is met, as often as they are met.
fn all_types(alloc: Global, world: &WorldKeys<'_>, mets: &[Met]) -> Result<Vec<TypeId>, NoMemory>
    requires { IsWorldKeys world.now }
    ensures { IfOk result (λ types. types.items ≡ flat_map (types_of_met (all_of world.now.marker.now)) (map met_told mets.now)) }
{
    let mut types = Vec::new(alloc);
    for met in mets {
        push_of_met(alloc, world, met, &mut types)?;
    }
    Ok(types)
}

/// Puts a type at the end that has a row, after the types around it.
fn push_referred(
    alloc: Global,
    scopes: &Scopes<'_>,
    id: TypeId,
    types: &mut Vec<TypeId>,
) -> Result<(), NoMemory>
    requires { IsScopes scopes.now }
    ensures { OnOk result (types.new.items ≡ types.old.items ++ referred (recs_of scopes.now) id) }
{
    let refers = scopes.is_reference(id)?;
    if refers {
        scopes.push_with_scopes(alloc, id, types)?;
    }
    Ok(())
}

/// Those of these types that have a row, each after the types around it.
fn with_rows(alloc: Global, scopes: &Scopes<'_>, met: &[TypeId]) -> Result<Vec<TypeId>, NoMemory>
    requires { IsScopes scopes.now }
    ensures { IfOk result (λ types. types.items ≡ all_referred (recs_of scopes.now) met.now) }
{
    let mut types = Vec::new(alloc);
    for id in met {
        push_referred(alloc, scopes, *id, &mut types)?;
    }
    Ok(types)
}

/// The types of the core library, and those that aren't there, to which the output refers: each once, as first met, after the types
/// around it.
#[tactic(auto, unfolding(rules::specs::merge_rules::Refs::type_refs), using(crate::proofs::lemmas::reference_types::Referring::referred_are))]
pub fn type_refs(
    alloc: Global,
    world: &WorldKeys<'_>,
    scopes: &Scopes<'_>,
    mets: &[Met],
) -> Result<MetTypes, NoMemory>
    requires world { IsWorldKeys world.now }
    requires scopes { IsScopes scopes.now }
    requires same { recs_of scopes.now ≡ all_of world.now.marker.now }
    ensures { IfOk result (λ types. types ≡ type_refs (all_of world.now.marker.now) (map met_told mets.now)) }
{
    let met = all_types(alloc, world, mets)?;
    let all = with_rows(alloc, scopes, met.as_slice())?;
    let types = MetTypes::of(alloc, all.as_slice())?;
    Ok(types)
}
