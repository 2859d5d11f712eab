//! Branches that are simple (III.3.5 to III.3.18).

ghost use Rattle.std.specs.Prelude.{◌≡◌, not, if◌then◌else◌};
ghost use Rattle.rules.specs.step_rules.Queries.{Queries};
ghost use Rattle.rules.specs.step_rules.Branches.{branch, branch_if, branch_test, branch_truth, same, test_of};
ghost use Rattle.rules.specs.step_rules.Words.{given};
ghost use Rattle.machine_words.specs.cil_words.Steps.{here_by};
ghost use Rattle.cil_machine.specs.Quiet.{QuietBy};

use crate::quiet::moves::{jumps, jumps_with_one, jumps_with_two};
use crate::quiet::values::{holds, truth};
use il_base::cil_values::{Instruction, State, Use};
use il_base::opcode;
use machine_numbers::cil_operands::{next_operand, operand};
use machine_words::cil_words::Body;

/// `br` (III.3.15).
#[inline(always)]
#[tactic(auto, unfolding(rules::specs::step_rules::Branches::branch))]
pub(crate) fn branch(body: &Body, i: &Instruction, st: &mut State) -> bool
    ensures { (q : Queries) → QuietBy result (branch q (here_by body.now st.old) i.now st.old) st.old st.new }
{
    match &i.operand {
        Use::Target(to) => jumps(body, i, *to, st),
        _ => false,
    }
}

/// The target where a condition holds, else the next instruction.
#[inline(always)]
fn target(i: &Instruction, to: u32, holds: bool) -> u32
    ensures { result ≡ (if holds then to else i.now.next) }
{
    if holds { to } else { i.next }
}

/// `brtrue` (III.3.18).
#[inline(always)]
fn on_true(body: &Body, i: &Instruction, to: u32, st: &mut State) -> bool
    ensures { QuietBy result (branch_truth (here_by body.now st.old) i.now to st.old same) st.old st.new }
{
    let Some((v, _)) = operand(st) else {
        return false;
    };
    let Some(yes) = truth(v) else {
        return false;
    };
    jumps_with_one(body, i, target(i, to, yes), st)
}

/// `brfalse` (III.3.17).
#[inline(always)]
fn on_false(body: &Body, i: &Instruction, to: u32, st: &mut State) -> bool
    ensures { QuietBy result (branch_truth (here_by body.now st.old) i.now to st.old not) st.old st.new }
{
    let Some((v, _)) = operand(st) else {
        return false;
    };
    let Some(yes) = truth(v) else {
        return false;
    };
    jumps_with_one(body, i, target(i, to, !yes), st)
}

/// The branches on two operands (III.3.5 to III.3.14).
#[inline(always)]
fn on_two(body: &Body, i: &Instruction, to: u32, st: &mut State) -> bool
    ensures { QuietBy result (given (test_of i.now.opcode) st.old (branch_test (here_by body.now st.old) i.now to st.old)) st.old st.new }
{
    let Some((b, below)) = operand(st) else {
        return false;
    };
    let Some((a, _)) = next_operand(below) else {
        return false;
    };
    let Some(yes) = holds(i.opcode, a, b) else {
        return false;
    };
    jumps_with_two(body, i, target(i, to, yes), st)
}

/// `brtrue` and `brfalse` (III.3.17, III.3.18), and the branches on two operands (III.3.5 to III.3.14).
#[inline(always)]
#[tactic(auto, unfolding(rules::specs::step_rules::Branches::branch_if))]
pub(crate) fn branch_if(body: &Body, i: &Instruction, st: &mut State) -> bool
    ensures { (q : Queries) → QuietBy result (branch_if q (here_by body.now st.old) i.now st.old) st.old st.new }
{
    match &i.operand {
        Use::Target(to) => match i.opcode {
            opcode::BRTRUE | opcode::BRTRUE_S => on_true(body, i, *to, st),
            opcode::BRFALSE | opcode::BRFALSE_S => on_false(body, i, *to, st),
            _ => on_two(body, i, *to, st),
        },
        _ => false,
    }
}
