//! The attributes of the output, and the references that the output makes.

ghost use Rattle.std.specs.Prelude.{◌≡◌, IfOk};
ghost use Rattle.resolver.specs.type_links.Index.{IsIndex};
ghost use Rattle.mark_parts.specs.mark_tables.Assemblies.{all_of};
ghost use Rattle.merge_plan.specs.Kept.{kept_by};
ghost use Rattle.merge_plan.specs.kept_tables.Kept.{AreKept};
ghost use Rattle.token_keys.specs.world_keys.Keys.{IsWorldKeys};
ghost use Rattle.reference_rows.specs.reference_scopes.Scopes.{recs_of, IsScopes};
ghost use Rattle.merged_tables.specs.Parts.{output_by};
ghost use Rattle.restrict.specs.Referring.{AreReferring};

use crate::merged_attributes::laws::attributes_tell;
use crate::merged_attributes::{Attribute, kept_attributes};
use crate::output_references::{OutputReferences, output_mets, output_references};
use il_base::NoMemory;
use merge_plan::KeptItems;
use merge_plan::kept_tables::tables::KeptTables;
use reference_rows::reference_scopes::scopes::Scopes;
use resolver::type_links::TypeIndex;
use std::alloc::Global;
use token_keys::world_keys::WorldKeys;

/// The attributes of the output, and the references that have rows.
#[derive(Drop)]
pub(crate) struct Referring {
    pub(crate) attributes: Vec<Attribute>,
    pub(crate) references: OutputReferences,
}

/// The attributes and references of the output with these kept items.
pub(crate) fn referring_with(
    alloc: Global,
    world: &WorldKeys<'_>,
    index: &TypeIndex<'_>,
    scopes: &Scopes<'_>,
    kept: &KeptItems,
    tables: &KeptTables,
) -> Result<Referring, NoMemory>
    requires world { IsWorldKeys world.now }
    requires index { IsIndex index.now }
    requires same { all_of world.now.marker.now ≡ index.now.all.now }
    requires scopes { IsScopes scopes.now }
    requires scoped { recs_of scopes.now ≡ index.now.all.now }
    requires tables { AreKept index.now.all.now (kept_by kept.now) tables.now }
    ensures { IfOk result (AreReferring (output_by index.now.all.now (kept_by kept.now))) }
{
    attributes_tell();
    let attributes = kept_attributes(alloc, world, index, tables)?;
    let each = attributes.as_slice();
    let mets = output_mets(alloc, world, kept, each)?;
    let references = output_references(alloc, world, scopes, &mets)?;
    Ok(Referring {
        attributes,
        references,
    })
}
