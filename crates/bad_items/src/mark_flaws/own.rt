//! What is wrong with an item's own row.

ghost use Rattle.std.specs.Prelude.{◌≡◌, ◌++◌, slice_get, OnOk};
ghost use Rattle.std.specs.List.{flat_map};
ghost use Rattle.rules.specs.link_rules.Cycles.{listed};
ghost use Rattle.rules.specs.mark_rules.BadItems.{has_module_initializer, type_flaws, method_flaws, flow_flaws, own_flaws};
ghost use Rattle.mark_parts.specs.mark_tables.Assemblies.{all_of, place_of, rec_of, IsAssembly, IsMarker};
ghost use Rattle.bad_items.specs.mark_flaws.Tables.{AreFlawRows};

use crate::mark_flaws::fields::{add_event, add_field, add_property};
use crate::mark_flaws::flaws::Flaws;
use crate::mark_flaws::methods::add_method;
use crate::mark_flaws::tables::FlawRows;
use crate::mark_flaws::types::add_type;
use il_base::world_model::token_of;
use il_base::{Item, NoMemory, table};
use mark_flow::fault_at;
use mark_parts::mark_tables::assembly::Assembly;
use mark_parts::mark_tables::marker::Marker;
use rules::link_rules::RowAt;
use std::alloc::Global;
use type_system::Types;

/// Puts what is wrong with the row of a type at the end, where it is there.
#[tactic(auto, using(crate::proofs::lemmas::mark_flaws::Lists::none_more))]
fn add_type_row(
    alloc: Global,
    marker: &Marker<'_>,
    asm: &Assembly<'_>,
    initializer: bool,
    at: RowAt,
    flaws: &mut Flaws,
) -> Result<(), NoMemory>
    requires marker { IsMarker marker.now }
    requires asm { IsAssembly asm.now }
    requires initializer { initializer ≡ has_module_initializer (all_of marker.now) at.asm }
    ensures { OnOk result (flaws.new ≡ flaws.old ++ flat_map (type_flaws (all_of marker.now) at (rec_of asm.now)) (listed (slice_get (rec_of asm.now).type_def at.row))) }
{
    match asm.scope.rec.type_def.get(at.row as usize) {
        Some(t) => add_type(alloc, marker, asm, initializer, at, t, flaws),
        None => Ok(()),
    }
}

/// Puts what is wrong with the row of a method at the end, where it is there.
#[tactic(auto, using(crate::proofs::lemmas::mark_flaws::Lists::none_more))]
fn add_method_row(
    marker: &Marker<'_>,
    asm: &Assembly<'_>,
    at: RowAt,
    flaws: &mut Flaws,
) -> Result<(), NoMemory>
    requires marker { IsMarker marker.now }
    requires asm { IsAssembly asm.now }
    ensures { OnOk result (flaws.new ≡ flaws.old ++ flat_map (method_flaws (all_of marker.now) at (rec_of asm.now)) (listed (slice_get (rec_of asm.now).method_def at.row))) }
{
    match asm.scope.rec.method_def.get(at.row as usize) {
        Some(m) => add_method(marker, asm, at, m, flaws),
        None => Ok(()),
    }
}

/// Puts the flaw of a method's body at the end, if its values have no flow.
#[tactic(auto, unfolding(rules::specs::mark_rules::BadItems::flow_flaws), using(crate::proofs::lemmas::mark_flaws::Lists::none_more))]
fn add_flow(
    alloc: Global,
    marker: &Marker<'_>,
    types: &Types<'_>,
    at: RowAt,
    flaws: &mut Flaws,
) -> Result<(), NoMemory>
    requires marker { IsMarker marker.now }
    requires types { types.now ≡ marker.now.tables.world.now }
    ensures { OnOk result (flaws.new ≡ flaws.old ++ flow_flaws (all_of marker.now) at) }
{
    match fault_at(alloc, marker, types, at) {
        Ok(Some(why)) => {
            let token = token_of(table::METHOD_DEF, at.row as usize)?;
            flaws.put(at, token, 0, why)
        }
        Ok(None) => Ok(()),
        Err(error) => Err(error),
    }
}

/// Puts what is wrong with a method at the end: with its row, and with the flow in its body.
#[tactic(auto, using(crate::proofs::lemmas::mark_flaws::Lists::two_put))]
fn add_of_method(
    alloc: Global,
    marker: &Marker<'_>,
    types: &Types<'_>,
    asm: &Assembly<'_>,
    at: RowAt,
    flaws: &mut Flaws,
) -> Result<(), NoMemory>
    requires marker { IsMarker marker.now }
    requires types { types.now ≡ marker.now.tables.world.now }
    requires asm { IsAssembly asm.now }
    ensures { OnOk result (flaws.new ≡ flaws.old ++ (flat_map (method_flaws (all_of marker.now) at (rec_of asm.now)) (listed (slice_get (rec_of asm.now).method_def at.row)) ++ flow_flaws (all_of marker.now) at)) }
{
    add_method_row(marker, asm, at, flaws)?;
    add_flow(alloc, marker, types, at, flaws)
}

/// Puts what is wrong with the own row of an item of an assembly at the end.
#[tactic(auto, using(crate::proofs::lemmas::mark_flaws::Lists::none_more))]
pub(crate) fn add_own_flaws(
    alloc: Global,
    marker: &Marker<'_>,
    types: &Types<'_>,
    asm: &Assembly<'_>,
    rows: &FlawRows,
    item: Item,
    at: RowAt,
    flaws: &mut Flaws,
) -> Result<(), NoMemory>
    requires marker { IsMarker marker.now }
    requires asm { IsAssembly asm.now }
    requires types { types.now ≡ marker.now.tables.world.now }
    requires place { place_of asm.now ≡ at.asm }
    requires rows { AreFlawRows (all_of marker.now) at.asm (rec_of asm.now) rows.now }
    ensures { OnOk result (flaws.new ≡ flaws.old ++ own_flaws (all_of marker.now) item at (rec_of asm.now)) }
{
    match item {
        Item::Asm(_) => Ok(()),
        Item::Typ(_) => add_type_row(alloc, marker, asm, rows.initializer, at, flaws),
        Item::Method(_) => add_of_method(alloc, marker, types, asm, at, flaws),
        Item::Field(_) => add_field(marker, asm, &rows.rvas, at, flaws),
        Item::Prop(_) => add_property(marker, asm, at, flaws),
        Item::Event(_) => add_event(marker, asm, at, flaws),
        Item::Impl(_) => Ok(()),
    }
}
