//! What has reference rows.

ghost use Rattle.std.specs.Prelude.{◌≡◌, map, IfOk};
ghost use Rattle.mark_parts.specs.mark_tables.Assemblies.{all_of};
ghost use Rattle.token_keys.specs.met_forms.Told.{met_told};
ghost use Rattle.reference_rows.specs.reference_scopes.Scopes.{IsScopes, recs_of};
ghost use Rattle.token_keys.specs.world_keys.Keys.{IsWorldKeys};
ghost use Rattle.restrict.specs.output_references.References.{AreReferencesOf};

use crate::reference_types::{locals_sigs, member_refs, method_specs, type_refs, type_specs};
use il_base::NoMemory;
use reference_rows::reference_scopes::scopes::Scopes;
use std::alloc::Global;
use token_keys::met_forms::{Met, Mets};
use token_keys::met_keys::instances::MetInstances;
use token_keys::met_keys::lists::MetLists;
use token_keys::met_keys::members::MetMembers;
use token_keys::met_keys::sigs::MetSigs;
use token_keys::met_keys::types::MetTypes;
use token_keys::world_keys::WorldKeys;

/// What has reference rows, each once, in the order in which it is met.
#[derive(Drop)]
pub struct OutputReferences {
    /// The types that have TypeRef rows.
    pub types: MetTypes,
    /// The signatures that have TypeSpec rows.
    pub specs: MetSigs,
    /// The members that have MemberRef rows.
    pub members: MetMembers,
    /// The methods with arguments, which have MethodSpec rows.
    pub instances: MetInstances,
    /// The locals that have StandAloneSig rows.
    pub locals: MetLists,
}

/// What has reference rows of what is met.
fn references_of(
    alloc: Global,
    world: &WorldKeys<'_>,
    scopes: &Scopes<'_>,
    mets: &[Met],
) -> Result<OutputReferences, NoMemory>
    requires world { IsWorldKeys world.now }
    requires scopes { IsScopes scopes.now }
    requires same { recs_of scopes.now ≡ all_of world.now.marker.now }
    ensures { IfOk result (AreReferencesOf (all_of world.now.marker.now) (map met_told mets.now)) }
{
    let types = type_refs(alloc, world, scopes, mets)?;
    let specs = type_specs(alloc, world, mets)?;
    let members = member_refs(alloc, mets)?;
    let instances = method_specs(alloc, mets)?;
    let locals = locals_sigs(alloc, mets)?;
    Ok(OutputReferences {
        types,
        specs,
        members,
        instances,
        locals,
    })
}

/// What has reference rows of what the output meets.
pub fn output_references(
    alloc: Global,
    world: &WorldKeys<'_>,
    scopes: &Scopes<'_>,
    mets: &Mets,
) -> Result<OutputReferences, NoMemory>
    requires world { IsWorldKeys world.now }
    requires scopes { IsScopes scopes.now }
    requires same { recs_of scopes.now ≡ all_of world.now.marker.now }
    ensures { IfOk result (AreReferencesOf (all_of world.now.marker.now) mets.now) }
{
    let found = references_of(alloc, world, scopes, mets.as_slice())?;
    Ok(found)
}
