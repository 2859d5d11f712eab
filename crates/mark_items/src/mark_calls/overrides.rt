//! The method that a method overrides by name (II.10.3).

ghost use Rattle.std.specs.Prelude.{◌≡◌, ◌++◌, OnOk};
ghost use Rattle.rules.specs.mark_rules.Calls.{overridden, overrides_of};
ghost use Rattle.mark_parts.specs.mark_tables.Assemblies.{all_of, IsMarker};
ghost use Rattle.mark_items.specs.mark_calls.Declared.{overridden_at};

use crate::mark_calls::declarations::add_declared;
use il_base::NoMemory;
use il_base::world_model::MethodDefRow;
use mark_parts::mark_facts::facts::Facts;
use mark_parts::mark_facts::kinds::Kind;
use mark_parts::mark_tables::marker::Marker;
use rules::link_rules::RowAt;
use std::alloc::Global;
use virtual_calls::flags::{is_new_slot, is_virtual};
use virtual_calls::nearest::method_at;
use virtual_calls::slots::inherited;

/// Marks the nearest inherited method that a method overrides by name.
fn add_overridden(
    alloc: Global,
    marker: &Marker<'_>,
    at: RowAt,
    m: &MethodDefRow,
    facts: &mut Facts,
) -> Result<(), NoMemory>
    requires { IsMarker marker.now }
    ensures { OnOk result (facts.new ≡ facts.old ++ overridden (all_of marker.now) at m.now) }
{
    if !is_virtual(m) {
        return Ok(());
    }
    if is_new_slot(m) {
        return Ok(());
    }
    match inherited(alloc, &marker.tables, at, m) {
        Ok(Some(above)) => facts.mark_row(marker.tables.world.recs.as_slice(), Kind::Method, above),
        Ok(None) => Ok(()),
        Err(error) => Err(error),
    }
}

/// Marks the nearest inherited method that the method in a row overrides by name.
#[tactic(auto, using(crate::proofs::lemmas::mark_calls::Lists::none_more))]
fn add_overridden_at(
    alloc: Global,
    marker: &Marker<'_>,
    at: RowAt,
    facts: &mut Facts,
) -> Result<(), NoMemory>
    requires { IsMarker marker.now }
    ensures { OnOk result (facts.new ≡ facts.old ++ overridden_at (all_of marker.now) at) }
{
    match method_at(&marker.tables, at) {
        Some(m) => add_overridden(alloc, marker, at, m, facts),
        None => Ok(()),
    }
}

/// Marks the methods that a marked method overrides: the nearest inherited method by name, and the declaration of each MethodImpl
/// row of any class whose body it is.
#[tactic(auto, unfolding(rules::specs::mark_rules::Calls::overrides_of), using(crate::proofs::lemmas::mark_calls::Lists::two_put))]
pub fn add_overrides(
    alloc: Global,
    marker: &Marker<'_>,
    at: RowAt,
    facts: &mut Facts,
) -> Result<(), NoMemory>
    requires { IsMarker marker.now }
    ensures { OnOk result (facts.new ≡ facts.old ++ overrides_of (all_of marker.now) at) }
{
    add_overridden_at(alloc, marker, at, facts)?;
    add_declared(marker, at, facts)
}
