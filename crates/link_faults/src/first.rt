//! The first fault of several assemblies.

ghost use Rattle.std.specs.Prelude.{◌≡◌, ◌≤◌, length, take, IfOk};
ghost use Rattle.rules.specs.link_rules.Faults.{link_fault};
ghost use Rattle.rules.specs.link_rules.Laws.{AreTypeLinks};
ghost use Rattle.link_faults.specs.Answer.{Answers};

use crate::cycles::cyclic_types;
use crate::duplicates::duplicate_member;
use crate::names::duplicate_assembly;
use crate::nesting::cyclic_nesting;
use il_base::NoMemory;
use il_base::world_model::{AsmRec, TypeLink};
use rules::link_rules::LinkError;
use std::alloc::Global;

/// The first fault of the first assemblies, `inputs` of them, in the world of all.
#[tactic(auto, unfolding(rules::specs::link_rules::Faults::link_fault))]
fn first_fault(
    alloc: Global,
    all: &[AsmRec],
    inputs: usize,
    links: &[TypeLink],
) -> Result<Option<LinkError>, NoMemory>
    requires told { AreTypeLinks all.now links.now }
    requires inputs { inputs ≤ length all.now }
    ensures { IfOk result (λ found. found ≡ link_fault all.now (take inputs all.now)) }
{
    let recs = &all[..inputs];
    if let Some(found) = duplicate_assembly(alloc, recs)? {
        return Ok(Some(found));
    }
    if let Some(found) = cyclic_types(alloc, all, inputs, links)? {
        return Ok(Some(found));
    }
    if let Some(found) = cyclic_nesting(alloc, recs)? {
        return Ok(Some(found));
    }
    duplicate_member(alloc, all, inputs, links)
}

/// Whether the first assemblies, `inputs` of them, make a world together with the others, which end with the core
/// library. `links` are the links of the type tokens of all assemblies, in order, and of each those of its TypeRef, TypeDef
/// and TypeSpec rows.
///
/// The error is the first fault: names of assemblies come first, then cycles of types, cycles of enclosers, and duplicate members;
/// each kind is searched for in all assemblies in order.
pub fn link_fault(
    alloc: Global,
    all: &[AsmRec],
    inputs: usize,
    links: &[TypeLink],
) -> Result<(), LinkError>
    requires told { AreTypeLinks all.now links.now }
    requires inputs { inputs ≤ length all.now }
    ensures { Answers (link_fault all.now (take inputs all.now)) result }
{
    match first_fault(alloc, all, inputs, links) {
        Err(_) => Err(LinkError::NoMemory),
        Ok(None) => Ok(()),
        Ok(Some(found)) => Err(found),
    }
}
