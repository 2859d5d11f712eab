//! Going on after a call.

ghost use Rattle.std.specs.Prelude.{◌≡◌, ℕ, List, Option, IfOk, OnOk};
ghost use Rattle.rules.specs.step_rules.Words.{goes_with};
ghost use Rattle.rules.specs.step_rules.Calls.{gives_made, gives_result, pushed};
ghost use Rattle.il_base.specs.declared.cil_values.value.Value.{Value};
ghost use Rattle.machine_words.specs.cil_words.Steps.{here_by, next_of};

use il_base::NoMemory;
use il_base::cil_values::{Instruction, Prefix, Stack, State, Value};
use machine_words::cil_words::{Body, StepOut, may_go, stuck};

/// Goes to the next instruction, with the evaluation stack as it is, whatever was printed.
#[tactic(auto, unfolding(rules::specs::step_rules::Words::goes_with))]
pub fn goes_with(body: &Body, i: &Instruction, st: &mut State) -> StepOut
    ensures { (bytes : List ℕ) → next_of result st.new bytes ≡ goes_with (here_by body.now st.old) i.now st.old.top.stack st.old bytes }
{
    if !may_go(body.code, i.at, i.next) {
        return stuck(st);
    }
    st.top.at = i.next;
    st.top.prefix = Prefix::None;
    StepOut::Went
}

/// Puts a value on a stack, if there is one.
pub fn push_result(stack: &mut Stack<Value>, v: Option<Value>) -> Result<(), NoMemory>
    ensures { OnOk result (stack.new ≡ pushed v stack.old) }
{
    match v {
        None => Ok(()),
        Some(v) => stack.push(v),
    }
}

/// What a call gives is pushed, and the next instruction comes.
#[tactic(auto, unfolding(rules::specs::step_rules::Words::goes_with))]
pub fn gives_result(
    body: &Body,
    i: &Instruction,
    v: Option<Value>,
    st: &mut State,
) -> Result<StepOut, NoMemory>
    ensures { IfOk result (λ out. (bytes : List ℕ) → next_of out st.new bytes ≡ gives_result (here_by body.now st.old) i.now st.old v bytes) }
{
    push_result(&mut st.top.stack, v)?;
    Ok(goes_with(body, i, st))
}

/// What `newobj` made is pushed, and the next instruction comes.
#[tactic(auto, unfolding(rules::specs::step_rules::Words::goes_with))]
pub fn gives_made(
    body: &Body,
    i: &Instruction,
    v: Value,
    st: &mut State,
) -> Result<StepOut, NoMemory>
    ensures { IfOk result (λ out. (bytes : List ℕ) → (r : Option Value) → next_of out st.new bytes ≡ gives_made (here_by body.now st.old) i.now v st.old r bytes) }
{
    st.top.stack.push(v)?;
    Ok(goes_with(body, i, st))
}
