ghost use Rattle.std.specs.Prelude.{IfOk};
ghost use Rattle.kept_marks.specs.Keeping.{KeepsMarked, ShowsMarked};

use crate::flags::{assembly_flags, item_flags, shown_flags};
use il_base::world_model::World;
use il_base::{Bits, NoMemory};
use mark_parts::mark_facts::kinds::Kind;
use marking::Marked;
use merge_plan::KeptItems;
use std::alloc::Global;

/// The items of a world that are marked, the core library's among them.
pub fn kept_items(alloc: Global, world: &World, marked: &Marked) -> Result<KeptItems, NoMemory>
    ensures { IfOk result (KeepsMarked world.now.recs marked.now) }
{
    let all = world.recs.as_slice();
    let assemblies = assembly_flags(alloc, all, marked)?;
    let types = item_flags(alloc, all, Kind::Type, marked)?;
    let methods = item_flags(alloc, all, Kind::Method, marked)?;
    let fields = item_flags(alloc, all, Kind::Field, marked)?;
    let properties = item_flags(alloc, all, Kind::Property, marked)?;
    let events = item_flags(alloc, all, Kind::Event, marked)?;
    let interfaces = item_flags(alloc, all, Kind::Interface, marked)?;
    Ok(KeptItems {
        assemblies,
        types,
        methods,
        fields,
        properties,
        events,
        interfaces,
    })
}

/// The types of a world whose name or identity can be seen when the program runs.
#[tactic(auto, using(crate::proofs::Told::shown_told))]
pub fn shown_types(alloc: Global, world: &World, marked: &Marked) -> Result<Bits, NoMemory>
    ensures { IfOk result (ShowsMarked world.now.recs marked.now) }
{
    shown_flags(alloc, world.recs.as_slice(), marked)
}
