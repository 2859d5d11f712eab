//! How simple instructions go on. Where control may not go on so, the state stays as it is.

ghost use Rattle.std.specs.Prelude.{◌≡◌, ◌∷◌, drop, IfOk};
ghost use Rattle.rules.specs.step_rules.Words.{branches, goes};
ghost use Rattle.machine_words.specs.cil_words.Steps.{here_by};
ghost use Rattle.cil_machine.specs.Quiet.{QuietBy};

use il_base::NoMemory;
use il_base::cil_values::{Instruction, Prefix, Stack, State, Value};
use machine_words::cil_words::{Body, may_go};

/// Takes an operand off.
#[inline(always)]
pub(crate) fn take_one(stack: &mut Stack<Value>)
    ensures { stack.new ≡ drop 1 stack.old }
{
    drop(stack.pop());
}

/// Takes two operands off.
#[inline(always)]
fn take_two(stack: &mut Stack<Value>)
    ensures { stack.new ≡ drop 2 stack.old }
{
    drop(stack.pop());
    drop(stack.pop());
}

/// Goes to another offset.
#[inline(always)]
#[tactic(auto, unfolding(rules::specs::step_rules::Words::branches))]
pub(crate) fn jumps(body: &Body, i: &Instruction, to: u32, st: &mut State) -> bool
    ensures { QuietBy result (branches (here_by body.now st.old) i.now to st.old.top.stack st.old) st.old st.new }
{
    if !may_go(body.code, i.at, to) {
        return false;
    }
    st.top.at = to;
    st.top.prefix = Prefix::None;
    true
}

/// Takes an operand off, and goes to another offset.
#[inline(always)]
#[tactic(auto, unfolding(rules::specs::step_rules::Words::branches))]
pub(crate) fn jumps_with_one(body: &Body, i: &Instruction, to: u32, st: &mut State) -> bool
    ensures { QuietBy result (branches (here_by body.now st.old) i.now to (drop 1 st.old.top.stack) st.old) st.old st.new }
{
    if !may_go(body.code, i.at, to) {
        return false;
    }
    take_one(&mut st.top.stack);
    st.top.at = to;
    st.top.prefix = Prefix::None;
    true
}

/// Takes two operands off, and goes to another offset.
#[inline(always)]
#[tactic(auto, unfolding(rules::specs::step_rules::Words::branches))]
pub(crate) fn jumps_with_two(body: &Body, i: &Instruction, to: u32, st: &mut State) -> bool
    ensures { QuietBy result (branches (here_by body.now st.old) i.now to (drop 2 st.old.top.stack) st.old) st.old st.new }
{
    if !may_go(body.code, i.at, to) {
        return false;
    }
    take_two(&mut st.top.stack);
    st.top.at = to;
    st.top.prefix = Prefix::None;
    true
}

/// Puts a value on the stack, and goes on.
#[inline(always)]
#[tactic(auto, unfolding(rules::specs::step_rules::Words::goes_with))]
pub(crate) fn pushes(
    body: &Body,
    i: &Instruction,
    v: Value,
    st: &mut State,
) -> Result<bool, NoMemory>
    ensures { IfOk result (λ went. QuietBy went (goes (here_by body.now st.old) i.now (v ∷ st.old.top.stack) st.old) st.old st.new) }
{
    if !may_go(body.code, i.at, i.next) {
        return Ok(false);
    }
    st.top.stack.push(v)?;
    st.top.at = i.next;
    st.top.prefix = Prefix::None;
    Ok(true)
}

/// Puts a value in the place of an operand, and goes on.
#[inline(always)]
#[tactic(auto, unfolding(rules::specs::step_rules::Words::goes_with))]
pub(crate) fn gives_for_one(
    body: &Body,
    i: &Instruction,
    v: Value,
    st: &mut State,
) -> Result<bool, NoMemory>
    ensures { IfOk result (λ went. QuietBy went (goes (here_by body.now st.old) i.now (v ∷ drop 1 st.old.top.stack) st.old) st.old st.new) }
{
    if !may_go(body.code, i.at, i.next) {
        return Ok(false);
    }
    take_one(&mut st.top.stack);
    st.top.stack.push(v)?;
    st.top.at = i.next;
    st.top.prefix = Prefix::None;
    Ok(true)
}

/// Puts a value in the place of two operands, and goes on.
#[inline(always)]
#[tactic(auto, unfolding(rules::specs::step_rules::Words::goes_with))]
pub(crate) fn gives_for_two(
    body: &Body,
    i: &Instruction,
    v: Value,
    st: &mut State,
) -> Result<bool, NoMemory>
    ensures { IfOk result (λ went. QuietBy went (goes (here_by body.now st.old) i.now (v ∷ drop 2 st.old.top.stack) st.old) st.old st.new) }
{
    if !may_go(body.code, i.at, i.next) {
        return Ok(false);
    }
    take_two(&mut st.top.stack);
    st.top.stack.push(v)?;
    st.top.at = i.next;
    st.top.prefix = Prefix::None;
    Ok(true)
}
