//! Operands, and values that take their place.

ghost use Rattle.std.specs.Prelude.{◌≡◌, ◌∷◌, [], drop, reverse, IfOk, MatchOption};
ghost use Rattle.rules.specs.step_rules.Words.{goes};
ghost use Rattle.machine_words.specs.cil_words.Steps.{next_of, here_by};

use il_base::NoMemory;
use il_base::cil_values::{Instruction, Stack, State, Value};
use machine_words::cil_words::{Body, StepOut, goes};

/// The last of some operands, and those below it. None where there is none.
pub fn next_operand(operands: &[Value]) -> Option<(&Value, &[Value])>
    ensures { MatchOption result (reverse operands.now ≡ []) (λ p. reverse operands.now ≡ p.0.now ∷ reverse p.1.now) }
{
    match operands {
        [] => None,
        [below @ .., top] => Some((top, below)),
    }
}

/// The operand on top of the evaluation stack, and those below it, the next one last. None where the stack is empty.
pub fn operand(st: &State) -> Option<(&Value, &[Value])>
    ensures { MatchOption result (st.now.top.stack ≡ []) (λ p. st.now.top.stack ≡ p.0.now ∷ reverse p.1.now) }
{
    next_operand(st.top.stack.as_slice())
}

fn take_off(stack: &mut Stack<Value>, n: usize)
    ensures { stack.new ≡ drop n stack.old }
{
    for _ in 0..n {
        drop(stack.pop());
    }
}

/// Takes this many operands off, and goes on.
#[tactic(auto, unfolding(rules::specs::step_rules::Words::goes_with))]
pub fn consumes(body: &Body, i: &Instruction, n: usize, st: &mut State) -> StepOut
    ensures { next_of result st.new [] ≡ goes (here_by body.now st.old) i.now (drop n st.old.top.stack) st.old }
{
    take_off(&mut st.top.stack, n);
    goes(body, i, st)
}

/// Puts a value in the place of this many operands, and goes on.
#[tactic(auto, unfolding(rules::specs::step_rules::Words::goes_with))]
pub fn gives(
    body: &Body,
    i: &Instruction,
    n: usize,
    v: Value,
    st: &mut State,
) -> Result<StepOut, NoMemory>
    ensures { IfOk result (λ out. next_of out st.new [] ≡ goes (here_by body.now st.old) i.now (v ∷ drop n st.old.top.stack) st.old) }
{
    take_off(&mut st.top.stack, n);
    st.top.stack.push(v)?;
    Ok(goes(body, i, st))
}
