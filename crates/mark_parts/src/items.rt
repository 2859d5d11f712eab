//! The parts of types, fields, properties, events and interface rows.

ghost use Rattle.std.specs.Prelude.{◌≡◌, ◌++◌, OnOk};
ghost use Rattle.rules.specs.mark_rules.Types.{parts_of_type, parts_of_field, parts_of_impl};
ghost use Rattle.rules.specs.mark_rules.Properties.{parts_of_property, parts_of_event};
ghost use Rattle.mark_parts.specs.mark_tables.Assemblies.{recs_of, place_of, rec_of, all_of, IsAssembly, IsMarker};
ghost use Rattle.mark_parts.specs.Items.{extends_parts};

use crate::constraints::add_constraints;
use crate::mark_facts::parts::Parts;
use crate::mark_tables::assembly::Assembly;
use crate::mark_tables::marker::Marker;
use crate::sigs::{add_method_sig, add_sig};
use crate::tokens::add_type_token;
use il_base::world_model::token_of;
use il_base::{NoMemory, table};
use rules::link_rules::RowAt;
use std::alloc::Global;

/// Adds the parts that the Extends of a type names, by the type's row from 0 and its token.
fn add_extends(
    alloc: Global,
    asm: &Assembly<'_>,
    k: u32,
    row: u32,
    parts: &mut Parts,
) -> Result<(), NoMemory>
    requires { IsAssembly asm.now }
    ensures { OnOk result (parts.new ≡ parts.old ++ extends_parts (recs_of asm.now) (place_of asm.now) (rec_of asm.now) k row) }
{
    let Some(t) = asm.scope.rec.type_def.get(k as usize) else {
        return Ok(());
    };
    if t.extends == 0 {
        return Ok(());
    }
    add_type_token(alloc, asm, row, 0, t.extends, parts)
}

/// Adds the parts of a type: what its Extends names, and the constraints of its parameters.
#[tactic(auto, unfolding(rules::specs::mark_rules::Types::parts_of_type), using(crate::proofs::Lists::two_put, crate::proofs::Lists::none_more))]
pub fn add_parts_of_type(
    alloc: Global,
    marker: &Marker<'_>,
    at: RowAt,
    parts: &mut Parts,
) -> Result<(), NoMemory>
    requires { IsMarker marker.now }
    ensures { OnOk result (parts.new ≡ parts.old ++ parts_of_type (all_of marker.now) at) }
{
    let Some(asm) = marker.assembly_at(at.asm) else {
        return Ok(());
    };
    let row = token_of(table::TYPE_DEF, at.row as usize)?;
    add_extends(alloc, &asm, at.row, row, parts)?;
    add_constraints(alloc, &asm, row, parts)
}

/// Adds the type of a field.
#[tactic(auto, unfolding(rules::specs::mark_rules::Types::parts_of_field), using(crate::proofs::Lists::none_more))]
pub fn add_parts_of_field(
    alloc: Global,
    marker: &Marker<'_>,
    at: RowAt,
    parts: &mut Parts,
) -> Result<(), NoMemory>
    requires { IsMarker marker.now }
    ensures { OnOk result (parts.new ≡ parts.old ++ parts_of_field (all_of marker.now) at) }
{
    let Some(asm) = marker.assembly_at(at.asm) else {
        return Ok(());
    };
    let Some(f) = asm.scope.rec.field.get(at.row as usize) else {
        return Ok(());
    };
    let row = token_of(table::FIELD, at.row as usize)?;
    add_sig(alloc, &asm, row, &f.signature, parts)
}

/// Adds the parts that an interface row names.
#[tactic(auto, unfolding(rules::specs::mark_rules::Types::parts_of_impl), using(crate::proofs::Lists::none_more))]
pub fn add_parts_of_impl(
    alloc: Global,
    marker: &Marker<'_>,
    at: RowAt,
    parts: &mut Parts,
) -> Result<(), NoMemory>
    requires { IsMarker marker.now }
    ensures { OnOk result (parts.new ≡ parts.old ++ parts_of_impl (all_of marker.now) at) }
{
    let Some(asm) = marker.assembly_at(at.asm) else {
        return Ok(());
    };
    let Some(i) = asm.scope.rec.interface_impl.get(at.row as usize) else {
        return Ok(());
    };
    let row = token_of(table::INTERFACE_IMPL, at.row as usize)?;
    add_type_token(alloc, &asm, row, 0, i.interface, parts)
}

/// Adds the types of a property's signature.
#[tactic(auto, unfolding(rules::specs::mark_rules::Properties::parts_of_property), using(crate::proofs::Lists::none_more))]
pub fn add_parts_of_property(
    alloc: Global,
    marker: &Marker<'_>,
    at: RowAt,
    parts: &mut Parts,
) -> Result<(), NoMemory>
    requires { IsMarker marker.now }
    ensures { OnOk result (parts.new ≡ parts.old ++ parts_of_property (all_of marker.now) at) }
{
    let Some(asm) = marker.assembly_at(at.asm) else {
        return Ok(());
    };
    let Some(p) = asm.scope.rec.property.get(at.row as usize) else {
        return Ok(());
    };
    let row = token_of(table::PROPERTY, at.row as usize)?;
    add_method_sig(alloc, &asm, row, &p.signature, parts)
}

/// Adds the parts that the event type of an event names.
#[tactic(auto, unfolding(rules::specs::mark_rules::Properties::parts_of_event), using(crate::proofs::Lists::none_more))]
pub fn add_parts_of_event(
    alloc: Global,
    marker: &Marker<'_>,
    at: RowAt,
    parts: &mut Parts,
) -> Result<(), NoMemory>
    requires { IsMarker marker.now }
    ensures { OnOk result (parts.new ≡ parts.old ++ parts_of_event (all_of marker.now) at) }
{
    let Some(asm) = marker.assembly_at(at.asm) else {
        return Ok(());
    };
    let Some(e) = asm.scope.rec.event.get(at.row as usize) else {
        return Ok(());
    };
    let row = token_of(table::EVENT, at.row as usize)?;
    add_type_token(alloc, &asm, row, 0, e.event_type, parts)
}
