//! Branches (III.3.5 to III.3.18, III.3.66).

ghost use Rattle.std.specs.Prelude.{◌≡◌, [], not, IfOk};
ghost use Rattle.rules.specs.step_rules.Queries.{Queries};
ghost use Rattle.rules.specs.step_rules.Branches.{branch, branch_if, branch_on, branch_test, branch_truth, same, switch, truth};
ghost use Rattle.machine_numbers.specs.cil_compare.Tests.{test_by};
ghost use Rattle.machine_words.specs.cil_words.Steps.{next_of, here_by};

use crate::cil_branches::operands::{target_in, targets_in};
use crate::cil_branches::tests_of::test_of;
use crate::cil_compare::{Test, is_true};
use il_base::cil_values::{Instruction, State, Value};
use il_base::{NoMemory, opcode};
use machine_words::cil_words::{Body, StepOut, branches, goes, stuck};

/// `br` (III.3.15).
#[tactic(auto, unfolding(rules::specs::step_rules::Branches::branch))]
pub fn branch(body: &Body, i: &Instruction, st: &mut State) -> Result<StepOut, NoMemory>
    ensures { IfOk result (λ out. (q : Queries) → next_of out st.new [] ≡ branch q (here_by body.now st.old) i.now st.old) }
{
    let Some(to) = target_in(&i.operand) else {
        return Ok(stuck(st));
    };
    Ok(branches(body, i, to, st))
}

/// Goes to the target where a condition holds, else to the next instruction.
fn branch_on(body: &Body, i: &Instruction, to: u32, holds: bool, st: &mut State) -> StepOut
    ensures { next_of result st.new [] ≡ branch_on (here_by body.now st.old) i.now to st.old.top.stack st.old holds }
{
    if holds {
        branches(body, i, to, st)
    } else {
        goes(body, i, st)
    }
}

/// Whether a value counts as true: null and 0 don't. None for a struct or a handle.
#[tactic(auto, unfolding(rules::specs::step_rules::Branches::truth))]
fn truth(v: &Value) -> Option<bool>
    ensures { result ≡ truth v.now }
{
    match v {
        Value::Null => Some(false),
        Value::I4(n) => Some(*n != 0),
        Value::I8(n) => Some(*n != 0),
        Value::Native(n) => Some(*n != 0),
        Value::Object(_) => Some(true),
        Value::Pointer(_) => Some(true),
        _ => None,
    }
}

/// `brtrue` (III.3.18).
#[tactic(auto, unfolding(rules::specs::step_rules::Words::goes_with, rules::specs::step_rules::Words::branches))]
fn branch_true(body: &Body, i: &Instruction, to: u32, st: &mut State) -> StepOut
    ensures { next_of result st.new [] ≡ branch_truth (here_by body.now st.old) i.now to st.old same }
{
    let Some(v) = st.top.stack.pop() else {
        return stuck(st);
    };
    match truth(&v) {
        None => stuck(st),
        Some(holds) => branch_on(body, i, to, holds, st),
    }
}

/// `brfalse` (III.3.17).
#[tactic(auto, unfolding(rules::specs::step_rules::Words::goes_with, rules::specs::step_rules::Words::branches))]
fn branch_false(body: &Body, i: &Instruction, to: u32, st: &mut State) -> StepOut
    ensures { next_of result st.new [] ≡ branch_truth (here_by body.now st.old) i.now to st.old not }
{
    let Some(v) = st.top.stack.pop() else {
        return stuck(st);
    };
    match truth(&v) {
        None => stuck(st),
        Some(holds) => branch_on(body, i, to, !holds, st),
    }
}

/// A branch on two operands (III.3.5 to III.3.14).
#[tactic(auto, unfolding(rules::specs::step_rules::Words::goes_with, rules::specs::step_rules::Words::branches))]
fn branch_test(body: &Body, i: &Instruction, to: u32, t: Test, st: &mut State) -> StepOut
    ensures { next_of result st.new [] ≡ branch_test (here_by body.now st.old) i.now to st.old (test_by t) }
{
    let Some(b) = st.top.stack.pop() else {
        return stuck(st);
    };
    let Some(a) = st.top.stack.pop() else {
        return stuck(st);
    };
    match is_true(t, &a, &b) {
        None => stuck(st),
        Some(holds) => branch_on(body, i, to, holds, st),
    }
}

/// `brtrue` and `brfalse` (III.3.17, III.3.18), and the branches on two operands (III.3.5 to III.3.14).
#[tactic(auto, unfolding(rules::specs::step_rules::Branches::branch_if))]
pub fn branch_if(body: &Body, i: &Instruction, st: &mut State) -> Result<StepOut, NoMemory>
    ensures { IfOk result (λ out. (q : Queries) → next_of out st.new [] ≡ branch_if q (here_by body.now st.old) i.now st.old) }
{
    let Some(to) = target_in(&i.operand) else {
        return Ok(stuck(st));
    };
    match i.opcode {
        opcode::BRTRUE | opcode::BRTRUE_S => Ok(branch_true(body, i, to, st)),
        opcode::BRFALSE | opcode::BRFALSE_S => Ok(branch_false(body, i, to, st)),
        code => match test_of(code) {
            None => Ok(stuck(st)),
            Some(t) => Ok(branch_test(body, i, to, t, st)),
        },
    }
}

/// `switch` (III.3.66). A number beyond the targets goes on.
#[tactic(auto, unfolding(rules::specs::step_rules::Branches::switch, rules::specs::step_rules::Words::goes_with, rules::specs::step_rules::Words::branches))]
pub fn switch(body: &Body, i: &Instruction, st: &mut State) -> Result<StepOut, NoMemory>
    ensures { IfOk result (λ out. (q : Queries) → next_of out st.new [] ≡ switch q (here_by body.now st.old) i.now st.old) }
{
    let Some(tos) = targets_in(&i.operand) else {
        return Ok(stuck(st));
    };
    let Some(v) = st.top.stack.pop() else {
        return Ok(stuck(st));
    };
    let Value::I4(n) = v else {
        return Ok(stuck(st));
    };
    match tos.get(n.cast_unsigned() as usize) {
        None => Ok(goes(body, i, st)),
        Some(to) => Ok(branches(body, i, *to, st)),
    }
}
