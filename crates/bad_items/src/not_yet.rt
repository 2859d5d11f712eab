//! The first marked method that names a member of reflection which marking doesn't follow yet.

ghost use Rattle.std.specs.Prelude.{◌≡◌, List, Option, map, IfOk};
ghost use Rattle.std.specs.List.{list_any};
ghost use Rattle.std.specs.Option.{is_some};
ghost use Rattle.descriptor_file.specs.declared.root.Root.{Root};
ghost use Rattle.rules.specs.declared.link_rules.row_at.RowAt.{RowAt};
ghost use Rattle.rules.specs.link_rules.Types.{at_row};
ghost use Rattle.rules.specs.mark_rules.Marking.{Marks};
ghost use Rattle.rules.specs.mark_rules.NotYet.{is_reflection, names_reflection, is_operand, has_operand, IsFirstNotYet};
ghost use Rattle.mark_parts.specs.mark_facts.Told.{named_told, part_told};
ghost use Rattle.mark_parts.specs.mark_tables.Assemblies.{all_of, IsMarker};
ghost use Rattle.marking.specs.Holding.{IsMarked};
ghost use Rattle.bad_items.specs.Searches.{found_from, is_waiting, first_row, first_assembly};

use il_base::core_table::core_kind;
use il_base::world_model::{Known, World};
use il_base::{MethodId, NoMemory};
use mark_parts::mark_facts::kinds::Kind;
use mark_parts::mark_facts::part::{Named, Part};
use mark_parts::mark_facts::parts::Parts;
use mark_parts::mark_facts::rows::item_at;
use mark_parts::mark_tables::marker::Marker;
use mark_parts::methods::add_parts_of_method;
use marking::Marked;
use rules::link_rules::RowAt;
use std::alloc::Global;
use type_tables::member_search::counted::row_of;

/// Whether a method is a member of reflection that does more than look at types.
#[tactic(auto, unfolding(rules::specs::mark_rules::NotYet::is_reflection, il_base::specs::core_table::Kinds::core_kind))]
fn is_reflection(world: &World, method: MethodId) -> bool
    ensures { result ≡ is_reflection world.now.recs method }
{
    match core_kind(world, method) {
        None => false,
        Some(kind) => match kind.member() {
            None => false,
            Some(member) => member.is_reflective() && !member.looks_at_types(),
        },
    }
}

/// Whether a method that a part names is such a member.
fn names_reflection(world: &World, named: &Named) -> bool
    ensures { result ≡ names_reflection world.now.recs (named_told named.now) }
{
    match named {
        Named::Type(_) => false,
        Named::Method(used) => is_reflection(world, used.method),
        Named::Field(_) => false,
    }
}

/// Whether a part of a method is an operand that names such a member.
fn is_operand(world: &World, part: &Part) -> bool
    ensures { result ≡ is_operand world.now.recs (part_told part.now) }
{
    match &part.named {
        Known::Good(named) => names_reflection(world, named),
        Known::Bad(_) => false,
    }
}

/// Whether one of these parts is such an operand.
fn is_one(world: &World, parts: &[Part]) -> bool
    ensures { result ≡ list_any (is_operand world.now.recs) (map part_told parts.now) }
{
    for part in parts {
        if is_operand(world, part) {
            return true;
        }
    }
    false
}

/// Whether the method in a row names such a member.
#[tactic(auto, unfolding(rules::specs::mark_rules::NotYet::has_operand))]
fn has_operand(alloc: Global, marker: &Marker<'_>, at: RowAt) -> Result<bool, NoMemory>
    requires { IsMarker marker.now }
    ensures { IfOk result (λ has. has ≡ has_operand (all_of marker.now) at) }
{
    let mut parts = Parts::new(alloc);
    add_parts_of_method(alloc, marker, at, &mut parts)?;
    Ok(is_one(marker.tables.world, parts.as_slice()))
}

/// Whether the method in a row is marked and names such a member.
fn is_waiting(
    alloc: Global,
    marker: &Marker<'_>,
    marked: &Marked,
    at: RowAt,
) -> Result<bool, NoMemory>
    requires { IsMarker marker.now }
    ensures { IfOk result (λ is. is ≡ is_waiting (all_of marker.now) marked.now at) }
{
    let item = item_at(marker.tables.world.recs.as_slice(), Kind::Method, at)?;
    if !marked.has(item) {
        return Ok(false);
    }
    has_operand(alloc, marker, at)
}

/// The first of so many rows of an assembly with such a method.
#[tactic(auto, using(crate::proofs::Searching::found_here, crate::proofs::Searching::found_next, crate::proofs::Searching::found_past))]
fn row_in(
    alloc: Global,
    marker: &Marker<'_>,
    marked: &Marked,
    asm: u32,
    count: u32,
) -> Result<Option<u32>, NoMemory>
    requires { IsMarker marker.now }
    ensures { IfOk result (λ row. row ≡ found_from (λ k. is_waiting (all_of marker.now) marked.now (at_row asm k)) count 0) }
{
    for row in 0..count {
        match is_waiting(alloc, marker, marked, RowAt { asm, row }) {
            Err(error) => return Err(error),
            Ok(true) => return Ok(Some(row)),
            Ok(false) => (),
        }
    }
    Ok(None)
}

/// Whether an assembly has such a method.
fn is_in_assembly(
    alloc: Global,
    marker: &Marker<'_>,
    marked: &Marked,
    asm: u32,
) -> Result<bool, NoMemory>
    requires { IsMarker marker.now }
    ensures { IfOk result (λ is. is ≡ is_some (first_row (all_of marker.now) marked.now asm)) }
{
    let all = marker.tables.world.recs.as_slice();
    let Some(rec) = all.get(asm as usize) else {
        return Ok(false);
    };
    let count = row_of(rec.method_def.len())?;
    let row = row_in(alloc, marker, marked, asm, count)?;
    Ok(row.is_some())
}

/// The first assembly with such a method.
#[tactic(auto, using(crate::proofs::Searching::found_here, crate::proofs::Searching::found_next, crate::proofs::Searching::found_past))]
fn first_assembly(
    alloc: Global,
    marker: &Marker<'_>,
    marked: &Marked,
) -> Result<Option<u32>, NoMemory>
    requires { IsMarker marker.now }
    ensures { IfOk result (λ asm. asm ≡ first_assembly (all_of marker.now) marked.now) }
{
    let count = row_of(marker.tables.world.recs.len())?;
    for asm in 0..count {
        match is_in_assembly(alloc, marker, marked, asm) {
            Err(error) => return Err(error),
            Ok(true) => return Ok(Some(asm)),
            Ok(false) => (),
        }
    }
    Ok(None)
}

/// The assembly of the first operand of a marked method, by assembly, token and offset, that names a member of reflection which
/// does more than look at types; None where there is none. The marked set is that of an entry and some elements of descriptors.
pub fn first_not_yet(
    alloc: Global,
    marker: &Marker<'_>,
    marked: &Marked,
) -> Result<Option<u32>, NoMemory>
    requires { IsMarker marker.now }
    ensures { IfOk result (λ asm. (entry : Option RowAt) (roots : List Root) → IsMarked (all_of marker.now) entry roots marked.now → IsFirstNotYet (all_of marker.now) (Marks (all_of marker.now) entry roots) asm) }
{
    let asm = first_assembly(alloc, marker, marked)?;
    Ok(asm)
}
