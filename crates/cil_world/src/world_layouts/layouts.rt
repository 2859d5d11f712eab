//! What the shapes of a world's types are looked up in.

ghost use Rattle.std.specs.Prelude.{◌≡◌, slice_get, IfOk};
ghost use Rattle.std.specs.Option.{option_copied};
ghost use Rattle.mark_parts.specs.mark_tables.Assemblies.{IsMarker};
ghost use Rattle.rules.specs.view_rules.Layouts.{shape_query};
ghost use Rattle.cil_world.specs.world_layouts.Settled.{kind_of};

use crate::world_definitions::Definitions;
use crate::world_layouts::kinds::TypeKind;
use crate::world_layouts::making::all_kinds;
use crate::world_layouts::shapes::shape_within;
use il_base::cil_values::Shape;
use il_base::world_model::TypeExpr;
use il_base::{NoMemory, TypeId};
use mark_parts::mark_tables::marker::Marker;
use std::alloc::Global;
use std::marker::Model;

/// How many structs may be in one another; a value of more isn't there.
pub(crate) const MOST_NESTED: u32 = 1024;

/// The definitions of a world, and what its types hold, made once. Contracts see the world, which a link gave.
#[derive(Drop)]
pub struct Layouts<'w> {
    definitions: Definitions<'w>,
    kinds: Vec<TypeKind>,
}

impl<'w> Model for Layouts<'w> {
    ghost use Rattle.std.specs.Prelude.{◌≡◌};
    ghost use Rattle.il_base.specs.declared.world_model.world.World.{World};
    ghost use Rattle.il_base.specs.contracts.world_model.world.World as whole;
    ghost use Rattle.cil_world.specs.world_layouts.Kinds.{kinds_from};

    ghost Value = { World };

    ghost coded = { whole.the_row.coded };

    ghost view = { λ l. l.definitions };

    ghost invariant = { λ l. l.kinds.items ≡ kinds_from l.definitions.recs 0 l.definitions.recs };
}

/// What is kept of a type, among all in the order of ids.
fn kind_in(kinds: &[TypeKind], ty: TypeId) -> Option<&TypeKind>
    ensures { option_copied result ≡ slice_get kinds.now ty.0 }
{
    kinds.get(ty.0 as usize)
}

impl<'w> Layouts<'w> {
    /// The layouts of a world whose definitions are made.
    pub fn of(
        alloc: Global,
        marker: &Marker<'w>,
        definitions: Definitions<'w>,
    ) -> Result<Layouts<'w>, NoMemory>
        requires is { IsMarker marker.now }
        requires same { definitions ≡ marker.now.tables.world.now }
        ensures { IfOk result (λ layouts. layouts ≡ definitions.entry) }
    {
        match all_kinds(alloc, marker) {
            Ok(kinds) => Ok(Layouts { definitions, kinds }),
            Err(error) => Err(error),
        }
    }

    /// The definitions of the world.
    pub fn definitions(&self) -> &Definitions<'w>
        ensures { result.now ≡ self.now }
    {
        &self.definitions
    }

    /// What is kept of a type definition; None where there is none.
    pub(crate) fn kind(&self, ty: TypeId) -> Option<&TypeKind>
        ensures { option_copied result ≡ kind_of self.now.recs ty }
    {
        kind_in(&self.kinds, ty)
    }

    /// What a place of a closed type holds.
    #[tactic(auto, unfolding(rules::specs::view_rules::Layouts::shape_query))]
    pub fn shape(&self, alloc: Global, ty: &TypeExpr) -> Result<Shape, NoMemory>
        ensures { IfOk result (λ shape. shape ≡ shape_query self.now.recs ty.now) }
    {
        shape_within(alloc, self, MOST_NESTED, ty)
    }
}
