//! The type definitions of a world.

ghost use Rattle.std.specs.Prelude.{◌≡◌, ◌++◌, IfOk, OnOk};
ghost use Rattle.il_base.specs.world_model.Worlds.{types_in};
ghost use Rattle.mark_parts.specs.mark_tables.Assemblies.{all_of, IsMarker};
ghost use Rattle.rules.specs.view_rules.Methods.{head_at, head_query};
ghost use Rattle.rules.specs.view_rules.Answers.{starts_query, maker_of, encloser_query};
ghost use Rattle.cil_world.specs.world_methods.Rows.{rows_of, rows_from};
ghost use Rattle.cil_world.specs.world_definitions.Types.{starts_at, maker_at, around_at};

use crate::world_definitions::type_rows::{around_at, head_at, maker_at, params_at, starts_at};
use crate::world_methods::rows::in_place;
use il_base::NoMemory;
use il_base::cil_values::Head;
use il_base::world_model::{AsmRec, World};
use mark_parts::mark_tables::marker::Marker;
use rules::link_rules::RowAt;
use std::alloc::Global;
use std::marker::Model;
use type_tables::member_search::counted::row_of;

/// The type definitions of a world, made once. Contracts see the world, which a link gave.
#[derive(Drop)]
pub struct Types<'w> {
    world: &'w World,
    /// By their places in the world.
    heads: Vec<Option<Head>>,
    /// The initializer of each, by its place in the world.
    starts: Vec<Option<u32>>,
    /// The constructor by which reflection makes objects of each, by its place in the world.
    makers: Vec<Option<u32>>,
    /// The type that each is nested in, both by their places in the world.
    enclosers: Vec<Option<u32>>,
}

impl<'w> Model for Types<'w> {
    ghost use Rattle.std.specs.Prelude.{◌≡◌, ℕ};
    ghost use Rattle.il_base.specs.declared.world_model.world.World.{World};
    ghost use Rattle.il_base.specs.contracts.world_model.world.World as of_world;
    ghost use Rattle.rules.specs.view_rules.Methods.{head_query};
    ghost use Rattle.rules.specs.view_rules.Answers.{starts_query, maker_of, encloser_query};
    ghost use Rattle.cil_world.specs.world_methods.Rows.{in_place};

    ghost Value = { World };

    ghost coded = { of_world.the_row.coded };

    ghost view = { λ t. t.world.now };

    ghost invariant = { λ t. ((n : ℕ) → in_place t.heads.items n ≡ head_query t.world.now.recs n) × ((n : ℕ) → in_place t.starts.items n ≡ starts_query t.world.now.recs n) × ((n : ℕ) → in_place t.makers.items n ≡ maker_of t.world.now.recs n) × ((n : ℕ) → in_place t.enclosers.items n ≡ encloser_query t.world.now.recs n) };
}

/// Puts the heads of the types of an assembly at the end.
fn add_heads(
    alloc: Global,
    marker: &Marker<'_>,
    a: usize,
    count: usize,
    rows: &mut Vec<Option<Head>>,
) -> Result<(), NoMemory>
    requires { IsMarker marker.now }
    ensures { OnOk result (rows.new.items ≡ rows.old.items ++ rows_of (head_at (all_of marker.now)) a count) }
{
    let asm = row_of(a)?;
    let params = params_at(alloc, marker, asm)?;
    for k in 0..count {
        let row = row_of(k)?;
        let one = head_at(marker, &params, RowAt { asm, row })?;
        rows.push(one)?;
    }
    Ok(())
}

/// The heads of the types of these assemblies, which are the first of a world.
fn heads_of(
    alloc: Global,
    marker: &Marker<'_>,
    all: &[AsmRec],
) -> Result<Vec<Option<Head>>, NoMemory>
    requires { IsMarker marker.now }
    ensures { IfOk result (λ rows. rows.items ≡ rows_from types_in (head_at (all_of marker.now)) 0 all.now) }
{
    let mut rows = Vec::new(alloc);
    for (a, rec) in all.iter().enumerate() {
        add_heads(alloc, marker, a, rec.type_def.len(), &mut rows)?;
    }
    Ok(rows)
}

/// Puts the initializers of the types of an assembly at the end.
fn add_starts(
    alloc: Global,
    marker: &Marker<'_>,
    a: usize,
    count: usize,
    rows: &mut Vec<Option<u32>>,
) -> Result<(), NoMemory>
    requires { IsMarker marker.now }
    ensures { OnOk result (rows.new.items ≡ rows.old.items ++ rows_of (starts_at (all_of marker.now)) a count) }
{
    let asm = row_of(a)?;
    for k in 0..count {
        let row = row_of(k)?;
        let one = starts_at(alloc, marker, RowAt { asm, row })?;
        rows.push(one)?;
    }
    Ok(())
}

/// The initializers of the types of these assemblies, which are the first of a world.
fn starts_of(
    alloc: Global,
    marker: &Marker<'_>,
    all: &[AsmRec],
) -> Result<Vec<Option<u32>>, NoMemory>
    requires { IsMarker marker.now }
    ensures { IfOk result (λ rows. rows.items ≡ rows_from types_in (starts_at (all_of marker.now)) 0 all.now) }
{
    let mut rows = Vec::new(alloc);
    for (a, rec) in all.iter().enumerate() {
        add_starts(alloc, marker, a, rec.type_def.len(), &mut rows)?;
    }
    Ok(rows)
}

/// Puts the constructors by which reflection makes objects of the types of an assembly at the end.
fn add_makers(
    alloc: Global,
    marker: &Marker<'_>,
    a: usize,
    count: usize,
    rows: &mut Vec<Option<u32>>,
) -> Result<(), NoMemory>
    requires { IsMarker marker.now }
    ensures { OnOk result (rows.new.items ≡ rows.old.items ++ rows_of (maker_at (all_of marker.now)) a count) }
{
    let asm = row_of(a)?;
    for k in 0..count {
        let row = row_of(k)?;
        let one = maker_at(alloc, marker, RowAt { asm, row })?;
        rows.push(one)?;
    }
    Ok(())
}

/// The same for the types of these assemblies, which are the first of a world.
fn makers_of(
    alloc: Global,
    marker: &Marker<'_>,
    all: &[AsmRec],
) -> Result<Vec<Option<u32>>, NoMemory>
    requires { IsMarker marker.now }
    ensures { IfOk result (λ rows. rows.items ≡ rows_from types_in (maker_at (all_of marker.now)) 0 all.now) }
{
    let mut rows = Vec::new(alloc);
    for (a, rec) in all.iter().enumerate() {
        add_makers(alloc, marker, a, rec.type_def.len(), &mut rows)?;
    }
    Ok(rows)
}

/// Puts the types that those of an assembly are nested in at the end.
fn add_enclosers(
    alloc: Global,
    marker: &Marker<'_>,
    a: usize,
    count: usize,
    rows: &mut Vec<Option<u32>>,
) -> Result<(), NoMemory>
    requires { IsMarker marker.now }
    ensures { OnOk result (rows.new.items ≡ rows.old.items ++ rows_of (around_at (all_of marker.now)) a count) }
{
    let asm = row_of(a)?;
    for k in 0..count {
        let row = row_of(k)?;
        let one = around_at(marker, RowAt { asm, row })?;
        rows.push(one)?;
    }
    Ok(())
}

/// The types that those of these assemblies are nested in. The assemblies are the first of a world.
fn enclosers_of(
    alloc: Global,
    marker: &Marker<'_>,
    all: &[AsmRec],
) -> Result<Vec<Option<u32>>, NoMemory>
    requires { IsMarker marker.now }
    ensures { IfOk result (λ rows. rows.items ≡ rows_from types_in (around_at (all_of marker.now)) 0 all.now) }
{
    let mut rows = Vec::new(alloc);
    for (a, rec) in all.iter().enumerate() {
        add_enclosers(alloc, marker, a, rec.type_def.len(), &mut rows)?;
    }
    Ok(rows)
}

impl<'w> Types<'w> {
    /// The type definitions of a world that a link gave.
    pub fn of(alloc: Global, marker: &Marker<'w>) -> Result<Types<'w>, NoMemory>
        requires { IsMarker marker.now }
        ensures { IfOk result (λ t. t ≡ marker.now.tables.world.now) }
    {
        let world = marker.tables.world;
        let heads = heads_of(alloc, marker, world.recs.as_slice())?;
        let starts = starts_of(alloc, marker, world.recs.as_slice())?;
        let makers = makers_of(alloc, marker, world.recs.as_slice())?;
        let enclosers = enclosers_of(alloc, marker, world.recs.as_slice())?;
        Ok(Types {
            world,
            heads,
            starts,
            makers,
            enclosers,
        })
    }

    /// A type definition, by its place in the world from 0. It takes no memory.
    pub fn head(&self, ty: u32) -> Option<Head>
        ensures { result ≡ head_query self.now.recs ty }
    {
        in_place(self.heads.as_slice(), ty).copied()
    }

    /// The initializer of a type (II.10.5.3), both by their places in the world from 0. It takes no memory.
    pub fn starts(&self, ty: u32) -> Option<u32>
        ensures { result ≡ starts_query self.now.recs ty }
    {
        in_place(self.starts.as_slice(), ty).copied()
    }

    /// The constructor by which reflection makes objects of a type (II.10.5.1), both by their places in the world from 0. It takes no
    /// memory.
    pub fn maker(&self, ty: u32) -> Option<u32>
        ensures { result ≡ maker_of self.now.recs ty }
    {
        in_place(self.makers.as_slice(), ty).copied()
    }

    /// The type definition that another is nested in (II.22.32), both by their places in the world from 0. It takes no memory.
    pub fn encloser(&self, ty: u32) -> Option<u32>
        ensures { result ≡ encloser_query self.now.recs ty }
    {
        in_place(self.enclosers.as_slice(), ty).copied()
    }
}
