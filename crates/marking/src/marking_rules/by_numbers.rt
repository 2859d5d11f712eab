ghost use Rattle.std.specs.List.{Contains};
ghost use Rattle.mark_numbers.specs.Numbers.{universe};
ghost use Rattle.mark_parts.specs.mark_tables.Assemblies.{all_of};
ghost use Rattle.marking.specs.marking_rules.Lists.{alone_list, joined_list};
ghost use Rattle.marking.specs.marking_rules.Ready.{IsReady, alone_below, joined_below, is_monotone};

use crate::mark_known::known::Known;
use crate::marking_rules::lists::{alone, joined};
use closure::queued_closure::Rules;
use il_base::{Bits, NoMemory, Seq};
use mark_items::named_rules::NamedRules;
use mark_numbers::numbers::Numbers;
use mark_parts::mark_tables::marker::Marker;
use std::alloc::Global;
use virtual_calls::slots::Slots;

/// The rules of marking over the numbers of a world's facts.
#[derive(Clone, Copy)]
pub struct MarkRules<'a, N> {
    pub marker: &'a Marker<'a>,
    pub slots: &'a Slots,
    pub numbers: &'a Numbers<'a>,
    pub named: &'a N,
}

impl<'a, N: NamedRules> Rules for MarkRules<'a, N> {
    ghost ready = { λ r. IsReady r.marker.now r.slots.now r.numbers.now (N.recs_of r.named.now) };

    ghost universe_of = { λ r. universe (all_of r.marker.now) };

    ghost alone = { λ r n c. Contains (alone_list r.marker.now.tables.world.now (N.roots_of r.named.now) n) c };

    ghost joined = { λ r have n c. Contains (joined_list r.marker.now.tables.world.now have n) c };

    ghost alone_below = { λ r n c ready below brought. alone_below r.marker.now r.slots.now r.numbers.now (N.recs_of r.named.now) (N.roots_of r.named.now) ready n c brought };

    ghost joined_below = { λ r have n c ready below brought. joined_below r.marker.now r.slots.now r.numbers.now (N.recs_of r.named.now) ready have n c brought };

    ghost is_monotone = { λ r few many n c ready below within brought. is_monotone r.marker.now r.slots.now r.numbers.now (N.recs_of r.named.now) ready few many n c within brought };

    fn universe(&self) -> u32 {
        self.numbers.universe()
    }

    fn brought_alone(&self, alloc: Global, fact: u32) -> Result<Seq<u32>, NoMemory> {
        let found = alone(alloc, self.marker, self.numbers, self.named, fact)?;
        Ok(found)
    }

    fn brought_with(&self, alloc: Global, have: &Bits, fact: u32) -> Result<Seq<u32>, NoMemory> {
        let k = Known {
            marker: self.marker,
            slots: self.slots,
            numbers: self.numbers,
            have,
        };
        let found = joined(alloc, &k, fact)?;
        Ok(found)
    }
}
