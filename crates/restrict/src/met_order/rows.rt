//! What rows of members refer to.

ghost use Rattle.std.specs.Prelude.{◌≡◌, ◌++◌, OnOk};
ghost use Rattle.std.specs.List.{flat_map};
ghost use Rattle.rules.specs.mark_rules.Bodies.{body_of};
ghost use Rattle.mark_parts.specs.mark_tables.Assemblies.{all_of};
ghost use Rattle.rules.specs.merge_rules.Order.{met_method_sig, met_body, met_method_row, met_field_row, met_property_row, met_event_row, met_extends};
ghost use Rattle.token_keys.specs.Keys.{IsKeys, recs_of, place_of, rec_of};
ghost use Rattle.token_keys.specs.world_keys.Keys.{IsWorldKeys};

use crate::met_parts::bodies::meet_body;
use crate::met_parts::sigs::{meet_method_sig, meet_sig};
use crate::met_parts::tokens::meet_type;
use il_base::NoMemory;
use il_base::world_model::{Known, MethodDefRow};
use rules::link_rules::RowAt;
use std::alloc::Global;
use token_keys::keys::Keys;
use token_keys::met_forms::Mets;
use token_keys::world_keys::WorldKeys;

/// Meets what the body of a method names; one that has no reading names nothing.
#[tactic(auto, using(crate::proofs::lemmas::met_order::Lists::none_more))]
fn meet_some_body(
    alloc: Global,
    keys: &Keys<'_>,
    m: &MethodDefRow,
    mets: &mut Mets,
) -> Result<(), NoMemory>
    requires { IsKeys keys.now }
    ensures { OnOk result (mets.new ≡ mets.old ++ flat_map (met_body (recs_of keys.now) (place_of keys.now) (rec_of keys.now)) (body_of m.now)) }
{
    match &m.body {
        None => Ok(()),
        Some(Known::Bad(_)) => Ok(()),
        Some(Known::Good(body)) => meet_body(alloc, keys, body, mets),
    }
}

/// Meets what a row of MethodDef names: its signature, then its body.
#[tactic(auto, using(crate::proofs::lemmas::met_order::Lists::two_put))]
fn meet_method(
    alloc: Global,
    keys: &Keys<'_>,
    m: &MethodDefRow,
    mets: &mut Mets,
) -> Result<(), NoMemory>
    requires { IsKeys keys.now }
    ensures { OnOk result (mets.new ≡ mets.old ++ (met_method_sig (recs_of keys.now) (place_of keys.now) (rec_of keys.now) m.now.signature ++ flat_map (met_body (recs_of keys.now) (place_of keys.now) (rec_of keys.now)) (body_of m.now))) }
{
    meet_method_sig(alloc, keys, &m.signature, mets)?;
    meet_some_body(alloc, keys, m, mets)
}

/// Meets what a method's row names.
#[tactic(auto, using(crate::proofs::lemmas::met_order::Lists::none_more))]
pub(crate) fn meet_method_row(
    alloc: Global,
    world: &WorldKeys<'_>,
    at: RowAt,
    mets: &mut Mets,
) -> Result<(), NoMemory>
    requires { IsWorldKeys world.now }
    ensures { OnOk result (mets.new ≡ mets.old ++ met_method_row (all_of world.now.marker.now) at) }
{
    let Some(keys) = world.at(at.asm) else {
        return Ok(());
    };
    let Some(m) = keys.asm.scope.rec.method_def.get(at.row as usize) else {
        return Ok(());
    };
    meet_method(alloc, &keys, m, mets)
}

/// Meets what a field's row names.
#[tactic(auto, using(crate::proofs::lemmas::met_order::Lists::none_more))]
pub(crate) fn meet_field_row(
    alloc: Global,
    world: &WorldKeys<'_>,
    at: RowAt,
    mets: &mut Mets,
) -> Result<(), NoMemory>
    requires { IsWorldKeys world.now }
    ensures { OnOk result (mets.new ≡ mets.old ++ met_field_row (all_of world.now.marker.now) at) }
{
    let Some(keys) = world.at(at.asm) else {
        return Ok(());
    };
    let Some(f) = keys.asm.scope.rec.field.get(at.row as usize) else {
        return Ok(());
    };
    meet_sig(alloc, &keys, &f.signature, mets)
}

/// Meets what a property's row names.
#[tactic(auto, using(crate::proofs::lemmas::met_order::Lists::none_more))]
pub(crate) fn meet_property_row(
    alloc: Global,
    world: &WorldKeys<'_>,
    at: RowAt,
    mets: &mut Mets,
) -> Result<(), NoMemory>
    requires { IsWorldKeys world.now }
    ensures { OnOk result (mets.new ≡ mets.old ++ met_property_row (all_of world.now.marker.now) at) }
{
    let Some(keys) = world.at(at.asm) else {
        return Ok(());
    };
    let Some(p) = keys.asm.scope.rec.property.get(at.row as usize) else {
        return Ok(());
    };
    meet_method_sig(alloc, &keys, &p.signature, mets)
}

/// Meets what an event's row names.
#[tactic(auto, using(crate::proofs::lemmas::met_order::Lists::none_more))]
pub(crate) fn meet_event_row(
    alloc: Global,
    world: &WorldKeys<'_>,
    at: RowAt,
    mets: &mut Mets,
) -> Result<(), NoMemory>
    requires { IsWorldKeys world.now }
    ensures { OnOk result (mets.new ≡ mets.old ++ met_event_row (all_of world.now.marker.now) at) }
{
    let Some(keys) = world.at(at.asm) else {
        return Ok(());
    };
    let Some(e) = keys.asm.scope.rec.event.get(at.row as usize) else {
        return Ok(());
    };
    meet_type(alloc, &keys, e.event_type, mets)
}

/// Meets the base of a type (II.22.37).
#[tactic(auto, using(crate::proofs::lemmas::met_order::Lists::none_more))]
pub(crate) fn meet_extends(
    alloc: Global,
    world: &WorldKeys<'_>,
    at: RowAt,
    mets: &mut Mets,
) -> Result<(), NoMemory>
    requires { IsWorldKeys world.now }
    ensures { OnOk result (mets.new ≡ mets.old ++ met_extends (all_of world.now.marker.now) at) }
{
    let Some(keys) = world.at(at.asm) else {
        return Ok(());
    };
    let Some(t) = keys.asm.scope.rec.type_def.get(at.row as usize) else {
        return Ok(());
    };
    meet_type(alloc, &keys, t.extends, mets)
}
