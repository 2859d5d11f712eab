//! Methods that are kept, with their types where they are constructors (II.10.5.1).

ghost use Rattle.std.specs.Prelude.{◌≡◌, ◌++◌, ◌∷◌, [], map, OnOk};
ghost use Rattle.std.specs.List.{flat_map};
ghost use Rattle.il_base.specs.world_model.Worlds.{type_id};
ghost use Rattle.rules.specs.mark_rules.Facts.Fact.{instantiated};
ghost use Rattle.rules.specs.mark_rules.Places.{marks_method};
ghost use Rattle.rules.specs.mark_rules.Members.{is_constructor, has_method_row};
ghost use Rattle.rules.specs.mark_rules.Roots.{keeps_method, all_methods};
ghost use Rattle.mark_parts.specs.mark_tables.Assemblies.{all_of, IsMarker};

use il_base::NoMemory;
use il_base::world_model::{AsmRec, MethodDefRow};
use mark_parts::mark_facts::facts::Facts;
use mark_parts::mark_facts::kinds::Kind;
use mark_parts::mark_rows::initializers::is_static;
use mark_parts::mark_rows::members::methods_of_type;
use mark_parts::mark_tables::marker::Marker;
use rules::link_rules::RowAt;
use std::alloc::Global;
use type_tables::methods::method_row_at;

/// Whether a method is named `.ctor` and is an instance's.
pub fn is_constructor(m: &MethodDefRow) -> bool
    ensures { result ≡ is_constructor m.now }
{
    m.name.as_slice() == b".ctor".as_slice() && !is_static(m)
}

/// Whether a method is there, and a constructor.
pub fn is_constructor_at(all: &[AsmRec], at: RowAt) -> bool
    ensures { result ≡ has_method_row all.now is_constructor at }
{
    match method_row_at(all, at) {
        Some(m) => is_constructor(m),
        None => false,
    }
}

/// Marks all of these methods.
pub(crate) fn mark_methods(
    all: &[AsmRec],
    rows: &[RowAt],
    facts: &mut Facts,
) -> Result<(), NoMemory>
    ensures { OnOk result (facts.new ≡ facts.old ++ map (marks_method all.now) rows.now) }
{
    for at in rows {
        facts.mark_row(all, Kind::Method, *at)?;
    }
    Ok(())
}

/// Makes a type instantiated, and marks its constructor.
#[tactic(auto, using(crate::proofs::lemmas::mark_whole::Lists::first_then))]
fn keep_constructor(all: &[AsmRec], t: RowAt, m: RowAt, facts: &mut Facts) -> Result<(), NoMemory>
    ensures { OnOk result (facts.new ≡ facts.old ++ instantiated (type_id all.now t.asm t.row) ∷ marks_method all.now m ∷ []) }
{
    facts.instantiate_row(all, t)?;
    facts.mark_row(all, Kind::Method, m)
}

/// Marks a method of a type; a constructor makes the type instantiated.
pub fn keep_method(all: &[AsmRec], t: RowAt, m: RowAt, facts: &mut Facts) -> Result<(), NoMemory>
    ensures { OnOk result (facts.new ≡ facts.old ++ keeps_method all.now t m) }
{
    let makes = is_constructor_at(all, m);
    if makes {
        return keep_constructor(all, t, m, facts);
    }
    facts.mark_row(all, Kind::Method, m)
}

/// Marks methods of a type; a constructor makes the type instantiated.
pub fn keep_methods(
    all: &[AsmRec],
    t: RowAt,
    rows: &[RowAt],
    facts: &mut Facts,
) -> Result<(), NoMemory>
    ensures { OnOk result (facts.new ≡ facts.old ++ flat_map (keeps_method all.now t) rows.now) }
{
    for m in rows {
        keep_method(all, t, *m, facts)?;
    }
    Ok(())
}

/// Adds all methods of a type.
pub fn add_methods(
    alloc: Global,
    marker: &Marker<'_>,
    t: RowAt,
    facts: &mut Facts,
) -> Result<(), NoMemory>
    requires { IsMarker marker.now }
    ensures { OnOk result (facts.new ≡ facts.old ++ all_methods (all_of marker.now) t) }
{
    let rows = methods_of_type(alloc, marker, t)?;
    keep_methods(
        marker.tables.world.recs.as_slice(),
        t,
        rows.as_slice(),
        facts,
    )
}
