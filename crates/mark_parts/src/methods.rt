//! The parts of a method.

ghost use Rattle.std.specs.Prelude.{◌≡◌, ◌++◌, OnOk};
ghost use Rattle.std.specs.List.{flat_map};
ghost use Rattle.rules.specs.link_rules.Types.{at_row};
ghost use Rattle.rules.specs.mark_rules.Bodies.{is_read, code_parts, body_parts, body_of};
ghost use Rattle.rules.specs.mark_rules.Calls.{row_parts, uncaught_row_parts, parts_of_method, uncaught_parts};
ghost use Rattle.mark_parts.specs.mark_tables.Assemblies.{recs_of, place_of, rec_of, all_of, IsAssembly, IsMarker};
ghost use Rattle.mark_parts.specs.Items.{head_parts, some_body_parts};

use crate::bodies::{add_body, add_code};
use crate::constraints::add_constraints;
use crate::mark_facts::parts::Parts;
use crate::mark_tables::assembly::Assembly;
use crate::mark_tables::marker::Marker;
use crate::sigs::add_method_sig;
use il_base::world_model::{Known, MethodDefRow, token_of};
use il_base::{MethodSig, NoMemory, table};
use rules::link_rules::RowAt;
use std::alloc::Global;

/// Whether the catch types of a body are among its parts.
#[derive(Clone, Copy, Debug, PartialEq, Eq)]
pub enum Caught {
    Named,
    Left,
}

/// Whether a signature has a reading.
pub fn is_read(sig: &Known<MethodSig>) -> bool
    ensures { result ≡ is_read sig.now }
{
    match sig {
        Known::Good(_) => true,
        Known::Bad(_) => false,
    }
}

/// Adds the parts that a method's signature and constraints name.
#[tactic(auto, using(crate::proofs::Lists::two_put, crate::proofs::Lists::none_more))]
fn add_head(
    alloc: Global,
    asm: &Assembly<'_>,
    row: u32,
    m: &MethodDefRow,
    parts: &mut Parts,
) -> Result<(), NoMemory>
    requires { IsAssembly asm.now }
    ensures { OnOk result (parts.new ≡ parts.old ++ head_parts (recs_of asm.now) (place_of asm.now) (rec_of asm.now) row m.now) }
{
    add_method_sig(alloc, asm, row, &m.signature, parts)?;
    add_constraints(alloc, asm, row, parts)
}

/// Adds the parts that a method's body names.
fn add_some_body(
    alloc: Global,
    asm: &Assembly<'_>,
    row: u32,
    caught: Caught,
    m: &MethodDefRow,
    parts: &mut Parts,
) -> Result<(), NoMemory>
    requires { IsAssembly asm.now }
    ensures { OnOk result (parts.new ≡ parts.old ++ some_body_parts (recs_of asm.now) (place_of asm.now) (rec_of asm.now) row caught m.now) }
{
    let read = is_read(&m.signature);
    match &m.body {
        None => Ok(()),
        Some(Known::Bad(_)) => Ok(()),
        Some(Known::Good(body)) => match caught {
            Caught::Named => add_body(alloc, asm, row, read, body, parts),
            Caught::Left => add_code(alloc, asm, row, read, body, parts),
        },
    }
}

/// Adds the parts of a method's row.
#[tactic(auto, using(crate::proofs::Lists::two_put, crate::proofs::Lists::none_more))]
fn add_row(
    alloc: Global,
    asm: &Assembly<'_>,
    row: u32,
    caught: Caught,
    m: &MethodDefRow,
    parts: &mut Parts,
) -> Result<(), NoMemory>
    requires { IsAssembly asm.now }
    ensures { OnOk result (parts.new ≡ parts.old ++ (head_parts (recs_of asm.now) (place_of asm.now) (rec_of asm.now) row m.now ++ some_body_parts (recs_of asm.now) (place_of asm.now) (rec_of asm.now) row caught m.now)) }
{
    add_head(alloc, asm, row, m, parts)?;
    add_some_body(alloc, asm, row, caught, m, parts)
}

/// Adds the parts of a method: its signature, the constraints of its parameters, its locals, what each operand
/// names, and the types that it catches. A row that isn't there has none.
#[tactic(auto, unfolding(rules::specs::mark_rules::Calls::parts_of_method), using(crate::proofs::Lists::none_more))]
pub fn add_parts_of_method(
    alloc: Global,
    marker: &Marker<'_>,
    at: RowAt,
    parts: &mut Parts,
) -> Result<(), NoMemory>
    requires { IsMarker marker.now }
    ensures { OnOk result (parts.new ≡ parts.old ++ parts_of_method (all_of marker.now) at) }
{
    let Some(asm) = marker.assembly_at(at.asm) else {
        return Ok(());
    };
    let Some(m) = asm.scope.rec.method_def.get(at.row as usize) else {
        return Ok(());
    };
    let row = token_of(table::METHOD_DEF, at.row as usize)?;
    add_row(alloc, &asm, row, Caught::Named, m, parts)
}

/// Adds the parts of a method but the types that it catches.
#[tactic(auto, unfolding(rules::specs::mark_rules::Calls::uncaught_parts), using(crate::proofs::Lists::none_more))]
pub fn add_uncaught_parts(
    alloc: Global,
    marker: &Marker<'_>,
    at: RowAt,
    parts: &mut Parts,
) -> Result<(), NoMemory>
    requires { IsMarker marker.now }
    ensures { OnOk result (parts.new ≡ parts.old ++ uncaught_parts (all_of marker.now) at) }
{
    let Some(asm) = marker.assembly_at(at.asm) else {
        return Ok(());
    };
    let Some(m) = asm.scope.rec.method_def.get(at.row as usize) else {
        return Ok(());
    };
    let row = token_of(table::METHOD_DEF, at.row as usize)?;
    add_row(alloc, &asm, row, Caught::Left, m, parts)
}
