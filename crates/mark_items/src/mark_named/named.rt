//! The fields and setters that the named arguments of an attribute mark (II.23.3).

ghost use Rattle.std.specs.Prelude.{◌≡◌, ◌++◌, ◌∷◌, OnOk};
ghost use Rattle.std.specs.List.{flat_map};
ghost use Rattle.rules.specs.mark_rules.Facts.Fact.{marked};
ghost use Rattle.rules.specs.mark_rules.Places.{marks_method};
ghost use Rattle.rules.specs.mark_rules.Naming.{of_expr};
ghost use Rattle.rules.specs.mark_rules.Attributes.{named_member};
ghost use Rattle.mark_parts.specs.mark_tables.Assemblies.{all_of, IsMarker};
ghost use Rattle.mark_items.specs.mark_named.Nearest.{field_marks, setter_marks, member_marks};

use crate::mark_named::nearest::nearest_member;
use crate::mark_named::setters::setter_of;
use attr_blobs::NamedArg;
use il_base::NoMemory;
use il_base::world_model::{AsmRec, TypeExpr};
use mark_parts::mark_facts::facts::Facts;
use mark_parts::mark_facts::kinds::Kind;
use mark_parts::mark_facts::naming::mark_expr;
use mark_parts::mark_tables::marker::Marker;
use rules::link_rules::RowAt;
use std::alloc::Global;

/// Marks a field, and the type in which it was found.
#[tactic(auto, using(crate::proofs::lemmas::mark_named::Lists::first_then))]
fn mark_field(all: &[AsmRec], ty: &TypeExpr, at: RowAt, facts: &mut Facts) -> Result<(), NoMemory>
    ensures { OnOk result (facts.new ≡ facts.old ++ field_marks all.now ty.now at) }
{
    facts.mark_row(all, Kind::Field, at)?;
    mark_expr(facts, ty)
}

/// Marks a method, and the type in which its property was found.
#[tactic(auto, using(crate::proofs::lemmas::mark_named::Lists::first_then))]
fn mark_method(all: &[AsmRec], ty: &TypeExpr, at: RowAt, facts: &mut Facts) -> Result<(), NoMemory>
    ensures { OnOk result (facts.new ≡ facts.old ++ marks_method all.now at ∷ of_expr ty.now) }
{
    facts.mark_row(all, Kind::Method, at)?;
    mark_expr(facts, ty)
}

/// Marks the setter of a property, and the type in which the property was found.
fn mark_setter(
    marker: &Marker<'_>,
    ty: &TypeExpr,
    at: RowAt,
    facts: &mut Facts,
) -> Result<(), NoMemory>
    requires { IsMarker marker.now }
    ensures { OnOk result (facts.new ≡ facts.old ++ setter_marks (all_of marker.now) ty.now at) }
{
    match setter_of(marker, at) {
        Ok(Some(m)) => mark_method(marker.tables.world.recs.as_slice(), ty, m, facts),
        Ok(None) => Ok(()),
        Err(error) => Err(error),
    }
}

/// Marks a field, or the setter of a property, and the type in which it was found.
fn mark_member(
    marker: &Marker<'_>,
    field: bool,
    ty: &TypeExpr,
    at: RowAt,
    facts: &mut Facts,
) -> Result<(), NoMemory>
    requires { IsMarker marker.now }
    ensures { OnOk result (facts.new ≡ facts.old ++ member_marks (all_of marker.now) field ty.now at) }
{
    if field {
        return mark_field(marker.tables.world.recs.as_slice(), ty, at, facts);
    }
    mark_setter(marker, ty, at, facts)
}

/// Marks the field or setter that a named argument sets: that of the attribute's type, or of its nearest base that has one.
fn add_member(
    alloc: Global,
    marker: &Marker<'_>,
    owner: &TypeExpr,
    n: &NamedArg,
    facts: &mut Facts,
) -> Result<(), NoMemory>
    requires { IsMarker marker.now }
    ensures { OnOk result (facts.new ≡ facts.old ++ named_member (all_of marker.now) owner.now n.now) }
{
    let start = owner.copy(alloc)?;
    match nearest_member(alloc, marker, n.field, n.name.as_slice(), start) {
        Ok(Some(found)) => mark_member(marker, n.field, &found.of, found.at, facts),
        Ok(None) => Ok(()),
        Err(error) => Err(error),
    }
}

/// Adds the fields and setters that named arguments set, each with the type in which it was found.
pub fn add_members(
    alloc: Global,
    marker: &Marker<'_>,
    owner: &TypeExpr,
    named: &[NamedArg],
    facts: &mut Facts,
) -> Result<(), NoMemory>
    requires { IsMarker marker.now }
    ensures { OnOk result (facts.new ≡ facts.old ++ flat_map (named_member (all_of marker.now) owner.now) named.now) }
{
    for n in named {
        add_member(alloc, marker, owner, n, facts)?;
    }
    Ok(())
}
