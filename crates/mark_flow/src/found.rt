//! The types that are known at a site.

ghost use Rattle.std.specs.Prelude.{◌≡◌, ◌++◌, ◌∷◌, [], List, ℕ, IfOk, OnOk};
ghost use Rattle.rules.specs.link_rules.Cycles.{listed};
ghost use Rattle.rules.specs.type_rules.Rows.{each_row};
ghost use Rattle.rules.specs.flow_rules.Sources.{type_of_text};
ghost use Rattle.rules.specs.mark_rules.FlowMarks.{found_by_inputs, known_types};
ghost use Rattle.mark_flow.specs.Tables.{recs_in, AreFlowTables};
ghost use Rattle.mark_flow.specs.Asked.{found_in};

use crate::tables::FlowTables;
use il_base::{NoMemory, TypeId, Units};
use rules::flow_rules::Source;
use rules::site_rules::Target;
use site_kinds::texts::is_text_slot;
use std::alloc::Global;
use type_system::Types;
use value_flow::type_of_text;

/// Adds the type that a text finds from an assembly.
#[tactic(auto, using(crate::proofs::Lists::none_more))]
fn add_type_of_text(
    alloc: Global,
    types: &Types<'_>,
    from: u32,
    text: &Units,
    found: &mut Vec<TypeId>,
) -> Result<(), NoMemory>
    ensures { OnOk result (found.new.items ≡ found.old.items ++ listed (type_of_text types.now.recs from text.now)) }
{
    match type_of_text(alloc, types, from, text) {
        Err(error) => Err(error),
        Ok(None) => Ok(()),
        Ok(Some(t)) => {
            found.push(t)?;
            Ok(())
        }
    }
}

/// Adds the type that a text finds from an assembly, which isn't the core library. `from` and `count` are the place of the assembly,
/// from 0, and how many there are.
#[tactic(auto, using(crate::proofs::Lists::none_more))]
fn add_found_in(
    alloc: Global,
    types: &Types<'_>,
    from: usize,
    text: &Units,
    found: &mut Vec<TypeId>,
) -> Result<(), NoMemory>
    ensures { OnOk result (found.new.items ≡ found.old.items ++ found_in types.now.recs text.now from) }
{
    let Ok(place) = u32::try_from(from) else {
        return Err(NoMemory);
    };
    if u64::from(place) + 1 == types.world().recs.len() as u64 {
        return Ok(());
    }
    add_type_of_text(alloc, types, place, text, found)
}

/// The types that a text finds from each input.
fn found_by_inputs(alloc: Global, types: &Types<'_>, text: &Units) -> Result<Vec<TypeId>, NoMemory>
    ensures { IfOk result (λ found. found.items ≡ found_by_inputs types.now.recs text.now) }
{
    let all = types.world().recs.as_slice();
    let mut found = Vec::new(alloc);
    for (from, _rec) in all.iter().enumerate() {
        add_found_in(alloc, types, from, text, &mut found)?;
    }
    Ok(found)
}

/// One type in a list.
fn only(alloc: Global, t: TypeId) -> Result<Vec<TypeId>, NoMemory>
    ensures { IfOk result (λ found. found.items ≡ t ∷ []) }
{
    let mut found = Vec::new(alloc);
    found.push(t)?;
    Ok(found)
}

/// The types that a known text finds, where it is for a slot of texts.
fn known_by_text(
    alloc: Global,
    tables: &FlowTables<'_>,
    to: Target,
    text: &Units,
) -> Result<Vec<TypeId>, NoMemory>
    requires { AreFlowTables tables.now }
    ensures { IfOk result (λ found. found.items ≡ known_types (recs_in tables.now) to (Source.KnownText text.now)) }
{
    let is = is_text_slot(alloc, &tables.annotated, to)?;
    if is {
        return found_by_inputs(alloc, tables.types, text);
    }
    Ok(Vec::new(alloc))
}

/// The types that are known by a source at a target: a known type, and in a slot of texts what a known text finds from each input.
pub(crate) fn known_types(
    alloc: Global,
    tables: &FlowTables<'_>,
    to: Target,
    source: &Source,
) -> Result<Vec<TypeId>, NoMemory>
    requires { AreFlowTables tables.now }
    ensures { IfOk result (λ found. found.items ≡ known_types (recs_in tables.now) to source.now) }
{
    match source {
        Source::KnownType(t) => only(alloc, *t),
        Source::KnownHandle(_) => Ok(Vec::new(alloc)),
        Source::KnownText(text) => known_by_text(alloc, tables, to, text),
        Source::Null => Ok(Vec::new(alloc)),
        Source::Parameter(_) => Ok(Vec::new(alloc)),
        Source::Return(_) => Ok(Vec::new(alloc)),
        Source::Field(_) => Ok(Vec::new(alloc)),
        Source::TypeParam(_, _) => Ok(Vec::new(alloc)),
        Source::MethodParam(_) => Ok(Vec::new(alloc)),
        Source::Opaque => Ok(Vec::new(alloc)),
    }
}
