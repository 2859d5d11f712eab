ghost use Rattle.std.specs.Prelude.{◌≡◌, ◌<◌, ◌^◌, IfOk};
ghost use Rattle.rules.specs.mark_rules.Facts.Fact.{marked, instantiated, reflected, shown};
ghost use Rattle.closure.specs.Facts.{is_set};
ghost use Rattle.mark_parts.specs.mark_tables.Assemblies.{all_of, IsMarker};
ghost use Rattle.virtual_calls.specs.Slots.{AreSlots};
ghost use Rattle.marking.specs.Holding.{place_by, holds, IsMarked};

use crate::set::marked_set;
use il_base::{Bits, Item, NoMemory, TypeId};
use mark_items::named_rules::NamedRules;
use mark_numbers::numbers::Numbers;
use mark_numbers::starts::Starts;
use mark_parts::mark_tables::marker::Marker;
use rules::link_rules::RowAt;
use std::alloc::Global;
use virtual_calls::slots::Slots;

/// The marked set of a program. The items and types of a look-up are of the program's world.
#[derive(Drop)]
pub struct Marked {
    set: Bits,
    starts: Starts,
}

impl Marked {
    /// Whether the fact with a number holds.
    fn has_number(&self, n: usize) -> bool
        ensures { result ≡ is_set self.now.set.flags n }
    {
        match self.set.flags.get(n) {
            Some(flag) => *flag,
            None => false,
        }
    }

    /// The place of an item among all.
    fn place(&self, item: Item) -> usize
        ensures is { result ≡ place_by self.now.starts item }
        ensures below { result < 2 ^ 33 }
    {
        match item {
            Item::Asm(id) => id.0 as usize,
            Item::Typ(id) => self.starts.types as usize + id.0 as usize,
            Item::Method(id) => self.starts.methods as usize + id.0 as usize,
            Item::Field(id) => self.starts.fields as usize + id.0 as usize,
            Item::Prop(id) => self.starts.properties as usize + id.0 as usize,
            Item::Event(id) => self.starts.events as usize + id.0 as usize,
            Item::Impl(id) => self.starts.interfaces as usize + id.0 as usize,
        }
    }

    /// Whether an item is needed. All items of the core library are.
    pub fn has(&self, item: Item) -> bool
        ensures { result ≡ holds self.now (marked item) }
    {
        self.has_number(self.place(item))
    }

    /// Whether an object or a value of a type may be made.
    pub fn instantiated(&self, id: TypeId) -> bool
        ensures { result ≡ holds self.now (instantiated id) }
    {
        self.has_number(self.starts.instantiated as usize + id.0 as usize)
    }

    /// Whether a type's name or identity can be seen when the program runs.
    pub fn shown(&self, id: TypeId) -> bool
        ensures { result ≡ holds self.now (shown id) }
    {
        self.has_number(self.starts.shown as usize + id.0 as usize)
    }

    /// Whether reflection may reach an item.
    pub fn reflected(&self, item: Item) -> bool
        ensures { result ≡ holds self.now (reflected item) }
    {
        self.has_number(self.starts.reflected as usize + self.place(item))
    }
}

/// The marked set of a program, from an entry method, by its row, and the elements of descriptors. It says for each item and type
/// of the world whether the rules of marking derive its facts.
pub fn mark<N: NamedRules>(
    alloc: Global,
    marker: &Marker<'_>,
    slots: &Slots,
    named: &N,
    entry: Option<RowAt>,
) -> Result<Marked, NoMemory>
    requires marker { IsMarker marker.now }
    requires slots { AreSlots (all_of marker.now) slots.now }
    requires named { N.recs_of named.now ≡ all_of marker.now }
    ensures { IfOk result (IsMarked (all_of marker.now) entry (N.roots_of named.now)) }
{
    let starts = Starts::of(marker.tables.world.recs.as_slice())?;
    let numbers = Numbers::of(marker.tables.world)?;
    let set = marked_set(alloc, marker, slots, &numbers, named, entry)?;
    Ok(Marked { set, starts })
}
