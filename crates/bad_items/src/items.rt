//! The flaws of marked items.

ghost use Rattle.std.specs.Prelude.{◌≡◌, ◌++◌, Some, ◌&&◌, not, slice_get, IfOk, OnOk};
ghost use Rattle.rules.specs.mark_rules.Places.{is_core};
ghost use Rattle.rules.specs.mark_rules.BadItems.{flaws_of};
ghost use Rattle.mark_parts.specs.mark_tables.Assemblies.{rec_of, IsAssemblyAt};
ghost use Rattle.base_laws.specs.flaw_laws.Listed.{item_flaws, home_flaws};
ghost use Rattle.bad_items.specs.Rows.{flaws_in, flaws_at};
ghost use Rattle.bad_items.specs.Programs.{world_in, recs_in, has, IsProgram};

use crate::attribute_flaws::attributes::add_attribute_flaws;
use crate::mark_flaws::flaws::Flaws;
use crate::mark_flaws::items::add_row_flaws;
use crate::program::Program;
use attribute_values::reader::reader_of;
use il_base::{Item, NoMemory};
use mark_parts::mark_facts::rows::{is_core, row_of};
use mark_parts::mark_tables::assembly::Assembly;
use rules::link_rules::RowAt;
use std::alloc::Global;

/// Puts the flaws of an item in a row of an assembly at the end.
#[tactic(auto, using(crate::proofs::lemmas::mark_flaws::Lists::two_put))]
fn add_here<'a>(
    alloc: Global,
    program: &Program<'a>,
    asm: Assembly<'a>,
    item: Item,
    at: RowAt,
    flaws: &mut Flaws,
) -> Result<(), NoMemory>
    requires program { IsProgram program.now }
    requires asm { IsAssemblyAt program.now.marker.now at.asm asm }
    requires here { slice_get (recs_in program.now) at.asm ≡ Some (rec_of asm) }
    ensures { OnOk result (flaws.new ≡ flaws.old ++ flaws_in (recs_in program.now) item at (rec_of asm.entry)) }
{
    let marker = program.marker;
    let tables = program.tables;
    let rows = tables.rows_at(at.asm);
    add_row_flaws(alloc, marker, program.types, &asm, rows, item, at, flaws)?;
    let reader = reader_of(marker, program.attributes, asm, at.asm)?;
    add_attribute_flaws(alloc, &reader, item, at, flaws)
}

/// Puts the flaws of an item in a row at the end.
#[tactic(auto, using(crate::proofs::lemmas::mark_flaws::Lists::none_more))]
fn add_at<'a>(
    alloc: Global,
    program: &Program<'a>,
    item: Item,
    at: RowAt,
    flaws: &mut Flaws,
) -> Result<(), NoMemory>
    requires { IsProgram program.now }
    ensures { OnOk result (flaws.new ≡ flaws.old ++ flaws_at (recs_in program.now) item at) }
{
    let marker = program.marker;
    let Some(asm) = marker.assembly_at(at.asm) else {
        return Ok(());
    };
    add_here(alloc, program, asm, item, at, flaws)
}

/// Puts the flaws of an item at the end.
#[tactic(auto, unfolding(rules::specs::mark_rules::BadItems::flaws_of), using(crate::proofs::lemmas::mark_flaws::Lists::none_more))]
fn add_flaws_of<'a>(
    alloc: Global,
    program: &Program<'a>,
    item: Item,
    flaws: &mut Flaws,
) -> Result<(), NoMemory>
    requires { IsProgram program.now }
    ensures { OnOk result (flaws.new ≡ flaws.old ++ flaws_of (recs_in program.now) item) }
{
    let marker = program.marker;
    match row_of(marker.tables.world.recs.as_slice(), item) {
        Ok(Some(at)) => add_at(alloc, program, item, at, flaws),
        Ok(None) => Ok(()),
        Err(error) => Err(error),
    }
}

/// Whether an item is marked, and an input's.
fn is_input(program: &Program<'_>, item: Item) -> Result<bool, NoMemory>
    ensures { IfOk result (λ is. is ≡ (has program.now item && not (is_core (recs_in program.now) item))) }
{
    let marker = program.marker;
    let marked = program.marked;
    let core = is_core(marker.tables.world.recs.as_slice(), item)?;
    Ok(marked.has(item) && !core)
}

/// Puts the flaws of an item at the end, if it is marked and an input's.
#[tactic(auto, using(crate::proofs::lemmas::mark_flaws::Lists::none_more))]
fn add_item<'a>(
    alloc: Global,
    program: &Program<'a>,
    item: Item,
    flaws: &mut Flaws,
) -> Result<(), NoMemory>
    requires { IsProgram program.now }
    ensures { OnOk result (flaws.new ≡ flaws.old ++ item_flaws (recs_in program.now) (has program.now) item) }
{
    let is = is_input(program, item)?;
    if is {
        return add_flaws_of(alloc, program, item, flaws);
    }
    Ok(())
}

/// Puts the flaws of the items of a world that are marked and an input's at the end.
pub(crate) fn add_items<'a>(
    alloc: Global,
    program: &Program<'a>,
    flaws: &mut Flaws,
) -> Result<(), NoMemory>
    requires { IsProgram program.now }
    ensures { OnOk result (flaws.new ≡ flaws.old ++ home_flaws (world_in program.now) (has program.now)) }
{
    let marker = program.marker;
    let world = marker.tables.world;
    for home in world.homes.as_slice() {
        add_item(alloc, program, home.item, flaws)?;
    }
    Ok(())
}
