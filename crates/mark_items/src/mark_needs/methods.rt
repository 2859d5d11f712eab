//! The needs of a marked method: its type and its parts; and the initializers that methods and static fields need.

ghost use Rattle.std.specs.Prelude.{◌≡◌, ◌++◌, Some, OnOk};
ghost use Rattle.rules.specs.link_rules.Cycles.{is_static_field};
ghost use Rattle.rules.specs.mark_rules.Calls.{owner_facts, method_needs, initializer_of, method_starts, field_starts};
ghost use Rattle.mark_parts.specs.mark_tables.Assemblies.{all_of, IsMarker};

use il_base::world_model::FieldRow;
use il_base::{NoMemory, field_flags, has_flag};
use mark_parts::mark_facts::facts::Facts;
use mark_parts::mark_facts::kinds::Kind;
use mark_parts::mark_facts::parts::Parts;
use mark_parts::mark_rows::initializers::initializer;
use mark_parts::mark_tables::marker::Marker;
use mark_parts::methods::add_parts_of_method;
use rules::link_rules::RowAt;
use std::alloc::Global;
use type_tables::methods::type_of_method;

/// Marks the type of a method.
fn add_owner(marker: &Marker<'_>, at: RowAt, facts: &mut Facts) -> Result<(), NoMemory>
    requires { IsMarker marker.now }
    ensures { OnOk result (facts.new ≡ facts.old ++ owner_facts (all_of marker.now) at) }
{
    match type_of_method(&marker.tables, at) {
        Ok(Some(of)) => facts.mark_row(marker.tables.world.recs.as_slice(), Kind::Type, of),
        Ok(None) => Ok(()),
        Err(error) => Err(error),
    }
}

/// Adds the needs of a marked method: its type, and what its signature, constraints and body name.
#[tactic(auto, unfolding(rules::specs::mark_rules::Calls::method_needs), using(crate::proofs::lemmas::mark_needs::Lists::two_put))]
pub fn add_method_needs(
    alloc: Global,
    marker: &Marker<'_>,
    at: RowAt,
    facts: &mut Facts,
) -> Result<(), NoMemory>
    requires { IsMarker marker.now }
    ensures { OnOk result (facts.new ≡ facts.old ++ method_needs (all_of marker.now) at) }
{
    let mut parts = Parts::new(alloc);
    add_parts_of_method(alloc, marker, at, &mut parts)?;
    add_owner(marker, at, facts)?;
    parts.mark(facts)
}

/// Marks the initializer of a type that is there.
fn add_initializer(
    alloc: Global,
    marker: &Marker<'_>,
    of: RowAt,
    facts: &mut Facts,
) -> Result<(), NoMemory>
    requires { IsMarker marker.now }
    ensures { OnOk result (facts.new ≡ facts.old ++ initializer_of (all_of marker.now) (Some of)) }
{
    match initializer(alloc, marker, of) {
        Ok(Some(at)) => facts.mark_row(marker.tables.world.recs.as_slice(), Kind::Method, at),
        Ok(None) => Ok(()),
        Err(error) => Err(error),
    }
}

/// Adds the initializer of a marked method's type.
#[tactic(auto, unfolding(rules::specs::mark_rules::Calls::method_starts))]
pub fn add_method_starts(
    alloc: Global,
    marker: &Marker<'_>,
    at: RowAt,
    facts: &mut Facts,
) -> Result<(), NoMemory>
    requires { IsMarker marker.now }
    ensures { OnOk result (facts.new ≡ facts.old ++ method_starts (all_of marker.now) at) }
{
    match type_of_method(&marker.tables, at) {
        Ok(Some(of)) => add_initializer(alloc, marker, of, facts),
        Ok(None) => Ok(()),
        Err(error) => Err(error),
    }
}

/// Whether a field is static, by its flags (II.23.1.5).
fn is_static_field(f: &FieldRow) -> bool
    ensures { result ≡ is_static_field f.now }
{
    has_flag(f.flags, field_flags::STATIC)
}

/// Adds the initializer of a marked static field's type.
#[tactic(auto, unfolding(rules::specs::mark_rules::Calls::field_starts))]
pub fn add_field_starts(
    alloc: Global,
    marker: &Marker<'_>,
    at: RowAt,
    facts: &mut Facts,
) -> Result<(), NoMemory>
    requires { IsMarker marker.now }
    ensures { OnOk result (facts.new ≡ facts.old ++ field_starts (all_of marker.now) at) }
{
    let Some(asm) = marker.assembly_at(at.asm) else {
        return Ok(());
    };
    let Some(f) = asm.scope.rec.field.get(at.row as usize) else {
        return Ok(());
    };
    if !is_static_field(f) {
        return Ok(());
    }
    match asm.owner_of_field(at.row) {
        Ok(Some(row)) => add_initializer(alloc, marker, RowAt { asm: at.asm, row }, facts),
        Ok(None) => Ok(()),
        Err(error) => Err(error),
    }
}
