//! The methods of a world.

ghost use Rattle.std.specs.Prelude.{◌≡◌, ◌++◌, map, slice_get, IfOk, OnOk};
ghost use Rattle.std.specs.Option.{option_copied};
ghost use Rattle.rules.specs.link_rules.Members.{methods_in};
ghost use Rattle.mark_parts.specs.mark_tables.Assemblies.{all_of, IsMarker};
ghost use Rattle.machine_words.specs.cil_queries.Bodies.{instruction_of};
ghost use Rattle.rules.specs.view_rules.Methods.{method_at, method_query};
ghost use Rattle.rules.specs.view_rules.Answers.{queries_of};
ghost use Rattle.cil_world.specs.world_methods.Rows.{rows_of, rows_from};
ghost use Rattle.cil_world.specs.world_methods.Places.{code_in, begins_at, HasPlaces, HavePlaces};

use crate::world_methods::defined::method_at;
use crate::world_methods::rows::in_place;
use il_base::NoMemory;
use il_base::cil_values::{Code, Instruction, Method};
use il_base::first_places::Places;
use il_base::world_model::{AsmRec, Known, World};
use mark_parts::mark_tables::marker::Marker;
use rules::link_rules::RowAt;
use std::alloc::Global;
use std::marker::Model;
use type_tables::member_search::counted::row_of;

/// The methods of a world, made once. Contracts see the world, which a link gave.
#[derive(Drop)]
pub struct Methods<'w> {
    world: &'w World,
    /// By their places in the world; None for one that no type's run holds.
    rows: Vec<Option<Method>>,
    /// Of each, where its instructions stand, by their IL offsets.
    places: Vec<Places>,
}

impl<'w> Model for Methods<'w> {
    ghost use Rattle.std.specs.Prelude.{◌≡◌, ℕ};
    ghost use Rattle.il_base.specs.declared.world_model.world.World.{World};
    ghost use Rattle.il_base.specs.contracts.world_model.world.World as of_world;
    ghost use Rattle.rules.specs.view_rules.Methods.{method_query};
    ghost use Rattle.cil_world.specs.world_methods.Rows.{in_place};
    ghost use Rattle.cil_world.specs.world_methods.Places.{HavePlaces};

    ghost Value = { World };

    ghost coded = { of_world.the_row.coded };

    ghost view = { λ m. m.world.now };

    ghost invariant = { λ m. ((n : ℕ) → in_place m.rows.items n ≡ method_query m.world.now.recs n) × HavePlaces m.rows.items m.places.items };
}

/// Puts the methods of an assembly at the end.
fn add_methods(
    alloc: Global,
    marker: &Marker<'_>,
    a: usize,
    count: usize,
    rows: &mut Vec<Option<Method>>,
) -> Result<(), NoMemory>
    requires { IsMarker marker.now }
    ensures { OnOk result (rows.new.items ≡ rows.old.items ++ rows_of (method_at (all_of marker.now)) a count) }
{
    let asm = row_of(a)?;
    for k in 0..count {
        let row = row_of(k)?;
        let one = method_at(alloc, marker, RowAt { asm, row })?;
        rows.push(one)?;
    }
    Ok(())
}

/// The methods of these assemblies, which are the first of a world.
fn methods_of(
    alloc: Global,
    marker: &Marker<'_>,
    all: &[AsmRec],
) -> Result<Vec<Option<Method>>, NoMemory>
    requires { IsMarker marker.now }
    ensures { IfOk result (λ rows. rows.items ≡ rows_from methods_in (method_at (all_of marker.now)) 0 all.now) }
{
    let mut rows = Vec::new(alloc);
    for (a, rec) in all.iter().enumerate() {
        add_methods(alloc, marker, a, rec.method_def.len(), &mut rows)?;
    }
    Ok(rows)
}

/// The body of a method, where it has one that can run.
fn code_in(m: &Option<Method>) -> Option<&Code>
    ensures { option_copied result ≡ code_in m.now }
{
    match m {
        None => None,
        Some(m) => match &m.body {
            Some(Known::Good(code)) => Some(code),
            Some(Known::Bad(_)) => None,
            None => None,
        },
    }
}

/// The IL offsets of instructions.
fn offsets(alloc: Global, code: &[Instruction]) -> Result<Vec<u32>, NoMemory>
    ensures { IfOk result (λ keys. keys.items ≡ map (λ (i : _). i.at) code.now) }
{
    let mut keys = Vec::new(alloc);
    for i in code {
        keys.push(i.at)?;
    }
    Ok(keys)
}

/// Where the instructions of a method stand.
fn places_in(alloc: Global, m: &Option<Method>) -> Result<Places, NoMemory>
    ensures { IfOk result (HasPlaces m.now) }
{
    match code_in(m) {
        None => Places::of(alloc, &[]),
        Some(code) => {
            let keys = offsets(alloc, code.code.as_slice())?;
            Places::of(alloc, keys.as_slice())
        }
    }
}

/// Where the instructions of each method stand.
fn places_of(alloc: Global, rows: &[Option<Method>]) -> Result<Vec<Places>, NoMemory>
    ensures { IfOk result (λ places. HavePlaces rows.now places.items) }
{
    let mut places = Vec::new(alloc);
    for m in rows {
        let own = places_in(alloc, m)?;
        places.push(own)?;
    }
    Ok(places)
}

/// The instruction of a body that begins at an IL offset.
#[tactic(auto, using(crate::proofs::lemmas::world_methods::Beginning::none_begins, crate::proofs::lemmas::world_methods::Beginning::one_begins))]
fn begins_at<'a>(m: &'a Option<Method>, places: &Places, at: u32) -> Option<&'a Instruction>
    requires { HasPlaces m.now places.now }
    ensures { option_copied result ≡ begins_at (code_in m.now) at }
{
    match code_in(m) {
        None => None,
        Some(code) => match places.get(at) {
            None => None,
            Some(place) => code.code.get(place),
        },
    }
}

/// The row in a place, from 0.
fn row_at(rows: &[Option<Method>], place: u32) -> Option<&Option<Method>>
    ensures { option_copied result ≡ slice_get rows.now place }
{
    rows.get(place as usize)
}

impl<'w> Methods<'w> {
    /// The methods of a world that a link gave.
    pub fn of(alloc: Global, marker: &Marker<'w>) -> Result<Methods<'w>, NoMemory>
        requires { IsMarker marker.now }
        ensures { IfOk result (λ m. m ≡ marker.now.tables.world.now) }
    {
        let world = marker.tables.world;
        let rows = methods_of(alloc, marker, world.recs.as_slice())?;
        let places = places_of(alloc, rows.as_slice())?;
        Ok(Methods {
            world,
            rows,
            places,
        })
    }

    /// A method, by its place in the world from 0; None for one that no type's run holds. It takes no memory.
    pub fn method(&self, method: u32) -> Option<&Method>
        ensures { option_copied result ≡ method_query self.now.recs method }
    {
        in_place(self.rows.as_slice(), method)
    }

    /// The instruction of a method's body at an IL offset; None where none begins there, or the method has no body that can
    /// run. It takes no memory.
    pub fn instruction(&self, method: u32, at: u32) -> Option<&Instruction>
        ensures { option_copied result ≡ instruction_of (queries_of self.now.recs) method at }
    {
        let rows = self.rows.as_slice();
        let places = self.places.as_slice();
        match row_at(rows, method) {
            None => None,
            Some(m) => begins_at(m, &places[method as usize], at),
        }
    }
}
