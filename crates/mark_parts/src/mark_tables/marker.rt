ghost use Rattle.std.specs.Prelude.{◌≡◌, slice_get, IfOk, IfSome};
ghost use Rattle.std.specs.Option.{option_map};
ghost use Rattle.rules.specs.link_rules.Linked.{IsWorld};
ghost use Rattle.mark_parts.specs.mark_tables.Assemblies.{rec_of, IsMarker, IsAssemblyAt};

use crate::mark_tables::assembly::Assembly;
use crate::mark_tables::impl_bodies::impl_bodies;
use crate::mark_tables::owners::{OwnerRows, owner_rows};
use il_base::NoMemory;
use il_base::world_model::World;
use std::alloc::Global;
use type_tables::groups::Groups;
use type_tables::tables::Tables;

/// A world with its tables.
#[derive(Drop)]
pub struct Marker<'w> {
    pub tables: Tables<'w>,
    pub rows: Vec<OwnerRows>,
    /// The MethodImpl rows of each assembly by the numbers of the methods that are their bodies.
    pub impls: Vec<Groups>,
}

impl<'w> Marker<'w> {
    /// The tables of a world that a link gave.
    pub fn of(alloc: Global, world: &'w World) -> Result<Marker<'w>, NoMemory>
        requires { IsWorld world.now }
        ensures is { IfOk result IsMarker }
        ensures world { IfOk result (λ m. m.tables.world.now ≡ world.now) }
    {
        let tables = Tables::of(alloc, world)?;
        let rows = owner_rows(alloc, world.recs.as_slice())?;
        let impls = impl_bodies(alloc, &tables)?;
        Ok(Marker {
            tables,
            rows,
            impls,
        })
    }

    /// An assembly of the world, by its place from 0, with its tables.
    pub fn assembly_at(&self, asm: u32) -> Option<Assembly<'_>>
        requires { IsMarker self.now }
        ensures there { option_map rec_of result ≡ slice_get self.now.tables.world.now.recs asm }
        ensures is { IfSome result (IsAssemblyAt self.now asm) }
    {
        let made = self.rows.as_slice();
        let rows = self.tables.rows_at(asm)?;
        Some(Assembly {
            world: self.tables.world,
            scope: rows.scope,
            of_types: rows.tables,
            owners: &made[asm as usize],
        })
    }
}
