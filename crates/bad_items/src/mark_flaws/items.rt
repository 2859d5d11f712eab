//! What is wrong with an item in a row, its attributes aside.

ghost use Rattle.std.specs.Prelude.{◌≡◌, ◌++◌, Some, slice_get, OnOk};
ghost use Rattle.rules.specs.mark_rules.BadItems.{part_flaws, own_flaws};
ghost use Rattle.mark_parts.specs.mark_tables.Assemblies.{all_of, rec_of, IsMarker, IsAssemblyAt};
ghost use Rattle.bad_items.specs.mark_flaws.Tables.{AreAt};

use crate::mark_flaws::flaws::Flaws;
use crate::mark_flaws::own::add_own_flaws;
use crate::mark_flaws::parts::add_part_flaws;
use crate::mark_flaws::tables::FlawRows;
use il_base::{Item, NoMemory};
use mark_parts::mark_tables::assembly::Assembly;
use mark_parts::mark_tables::marker::Marker;
use rules::link_rules::RowAt;
use std::alloc::Global;
use type_system::Types;

/// Puts the flaws of an item's parts and of its own row at the end; `asm` is the assembly of the row.
#[tactic(auto, using(crate::proofs::lemmas::mark_flaws::Lists::two_put))]
pub fn add_row_flaws(
    alloc: Global,
    marker: &Marker<'_>,
    types: &Types<'_>,
    asm: &Assembly<'_>,
    rows: &FlawRows,
    item: Item,
    at: RowAt,
    flaws: &mut Flaws,
) -> Result<(), NoMemory>
    requires marker { IsMarker marker.now }
    requires types { types.now ≡ marker.now.tables.world.now }
    requires asm { IsAssemblyAt marker.now at.asm asm.now }
    requires here { slice_get (all_of marker.now) at.asm ≡ Some (rec_of asm.now) }
    requires rows { AreAt (all_of marker.now) at.asm rows.now }
    ensures { OnOk result (flaws.new ≡ flaws.old ++ (part_flaws (all_of marker.now) item at ++ own_flaws (all_of marker.now) item at (rec_of asm.now))) }
{
    add_part_flaws(alloc, marker, item, at, flaws)?;
    add_own_flaws(alloc, marker, types, asm, rows, item, at, flaws)
}
