//! The marked set, by the numbers of facts.

ghost use Rattle.std.specs.Prelude.{◌≡◌, IfOk};
ghost use Rattle.mark_parts.specs.mark_tables.Assemblies.{all_of, IsMarker};
ghost use Rattle.virtual_calls.specs.Slots.{AreSlots};
ghost use Rattle.mark_numbers.specs.Starts.{AreNumbers};
ghost use Rattle.marking.specs.Marks.{IsMarkedSet};

use crate::marking_rules::by_numbers::MarkRules;
use crate::marking_rules::laws::lists_bring;
use crate::starts::start_numbers;
use base_laws::world_laws::laws::homes_told;
use closure::queued_closure::least;
use il_base::{Bits, NoMemory};
use mark_items::named_rules::NamedRules;
use mark_numbers::laws::numbers_told;
use mark_numbers::mark_laws::laws::marks_told;
use mark_numbers::numbers::Numbers;
use mark_parts::mark_tables::marker::Marker;
use rules::link_rules::RowAt;
use std::alloc::Global;
use virtual_calls::slots::Slots;

/// The set of the facts that hold, by their numbers.
pub(crate) fn marked_set<N: NamedRules>(
    alloc: Global,
    marker: &Marker<'_>,
    slots: &Slots,
    numbers: &Numbers<'_>,
    named: &N,
    entry: Option<RowAt>,
) -> Result<Bits, NoMemory>
    requires marker { IsMarker marker.now }
    requires slots { AreSlots (all_of marker.now) slots.now }
    requires numbers { AreNumbers numbers.now }
    requires world { numbers.now.world.now ≡ marker.now.tables.world.now }
    requires named { N.recs_of named.now ≡ all_of marker.now }
    ensures { IfOk result (IsMarkedSet (all_of marker.now) entry (N.roots_of named.now)) }
{
    marks_told();
    numbers_told();
    homes_told();
    lists_bring();
    let rules = MarkRules {
        marker,
        slots,
        numbers,
        named,
    };
    let starts = start_numbers(alloc, marker, numbers, named, entry)?;
    let set = least(alloc, &rules, &starts)?;
    Ok(set)
}
