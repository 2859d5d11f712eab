//! What is met, in order.

ghost use Rattle.std.specs.Prelude.{◌≡◌, ◌++◌, map, IfOk};
ghost use Rattle.mark_parts.specs.mark_tables.Assemblies.{all_of};
ghost use Rattle.rules.specs.merge_rules.Order.{met_by_types};
ghost use Rattle.merge_plan.specs.Kept.{kept_by};
ghost use Rattle.token_keys.specs.world_keys.Keys.{IsWorldKeys};
ghost use Rattle.restrict.specs.merged_attributes.Attributes.{told, met_by};

use crate::merged_attributes::{Attribute, meet_attributes};
use crate::met_order::types::met_by_types;
use il_base::NoMemory;
use merge_plan::KeptItems;
use std::alloc::Global;
use token_keys::met_forms::Mets;
use token_keys::world_keys::WorldKeys;

/// What the kept types and their members refer to, then what the attributes do.
pub fn output_mets(
    alloc: Global,
    world: &WorldKeys<'_>,
    kept: &KeptItems,
    attributes: &[Attribute],
) -> Result<Mets, NoMemory>
    requires { IsWorldKeys world.now }
    ensures { IfOk result (λ mets. mets ≡ met_by_types (all_of world.now.marker.now) (kept_by kept.now) ++ map met_by (map told attributes.now)) }
{
    let mut mets = met_by_types(alloc, world, kept)?;
    meet_attributes(alloc, attributes, &mut mets)?;
    Ok(mets)
}
