//! Arithmetic, bits, shifts, comparisons and conversions (III.1.5, III.3).

ghost use Rattle.std.specs.Prelude.{◌≡◌, List, [], ◌∷◌, IfOk};
ghost use Rattle.il_base.specs.declared.cil_values.value.Value.{Value};
ghost use Rattle.rules.specs.step_rules.Words.{given, goes};
ghost use Rattle.rules.specs.step_rules.Queries.{Queries};
ghost use Rattle.rules.specs.step_rules.Numbers.{binary, unary, unary_of, convert};
ghost use Rattle.machine_numbers.specs.cil_numbers.Outcomes.{finished, one_over, two_over};
ghost use Rattle.machine_numbers.specs.cil_pointers.Reaching.{with_stack};
ghost use Rattle.machine_words.specs.cil_words.Steps.{next_of, here_by};

use crate::cil_arithmetic::Outcome;
use crate::cil_conversions::convert_of;
use crate::cil_numbers::shifts::unary_of;
use crate::cil_numbers::two_operands::binary_of;
use crate::cil_pointers::{discard, gives};
use il_base::NoMemory;
use il_base::cil_values::{Instruction, State, Value};
use machine_frames::cil_raising::raise;
use machine_words::cil_queries::Answers;
use machine_words::cil_words::{Body, StepOut, stuck};
use std::alloc::Global;

/// Goes on with what an instruction on two operands came to. What raises has the operands on the stack.
fn finish_two<Q: Answers>(
    alloc: Global,
    q: &Q,
    body: &Body,
    i: &Instruction,
    a: Value,
    b: Value,
    out: Outcome,
    st: &mut State,
) -> Result<StepOut, NoMemory>
    ensures { IfOk result (λ next. next_of next st.new [] ≡ finished (Q.queries q.now) (here_by body.now st.old) i.now st.old.top.stack (with_stack (b ∷ a ∷ st.old.top.stack) st.old) out) }
{
    match out {
        Outcome::Gives(v) => {
            discard(a);
            discard(b);
            let next = gives(body, i, v, st)?;
            Ok(next)
        }
        Outcome::Raises(name) => {
            st.top.stack.push(a)?;
            st.top.stack.push(b)?;
            raise(alloc, q, name, st)
        }
    }
}

/// An instruction on a lower operand and an upper one, which are off the stack.
fn of_two<Q: Answers>(
    alloc: Global,
    q: &Q,
    body: &Body,
    i: &Instruction,
    a: Value,
    b: Value,
    st: &mut State,
) -> Result<StepOut, NoMemory>
    ensures { IfOk result (λ next. next_of next st.new [] ≡ two_over (Q.queries q.now) (here_by body.now st.old) i.now a b st.old) }
{
    match binary_of(i.opcode, &a, &b) {
        None => {
            discard(a);
            discard(b);
            Ok(stuck(st))
        }
        Some(out) => finish_two(alloc, q, body, i, a, b, out, st),
    }
}

/// The instructions with two operands (III.3.1 to III.3.3, III.3.21 to III.3.26, III.3.31 and on).
#[tactic(auto, unfolding(rules::specs::step_rules::Numbers::binary))]
pub fn binary<Q: Answers>(
    alloc: Global,
    q: &Q,
    body: &Body,
    i: &Instruction,
    st: &mut State,
) -> Result<StepOut, NoMemory>
    ensures { IfOk result (λ out. next_of out st.new [] ≡ binary (Q.queries q.now) (here_by body.now st.old) i.now st.old) }
{
    let Some(b) = st.top.stack.pop() else {
        return Ok(stuck(st));
    };
    let Some(a) = st.top.stack.pop() else {
        return Ok(stuck(st));
    };
    let out = of_two(alloc, q, body, i, a, b, st)?;
    Ok(out)
}

/// An operand that is off the stack, negated or complemented.
fn of_unary(body: &Body, i: &Instruction, v: Value, st: &mut State) -> Result<StepOut, NoMemory>
    ensures { IfOk result (λ next. (vs : List Value) → next_of next st.new [] ≡ given (unary_of i.now.opcode v) (with_stack vs st.old) (λ w. goes (here_by body.now st.old) i.now (w ∷ st.old.top.stack) (with_stack vs st.old))) }
{
    let found = unary_of(i.opcode, &v);
    discard(v);
    match found {
        None => Ok(stuck(st)),
        Some(w) => gives(body, i, w, st),
    }
}

/// `neg` and `not` (III.3.50, III.3.52).
#[tactic(auto, unfolding(rules::specs::step_rules::Numbers::unary))]
pub fn unary(body: &Body, i: &Instruction, st: &mut State) -> Result<StepOut, NoMemory>
    ensures { IfOk result (λ next. (q : Queries) → next_of next st.new [] ≡ unary q (here_by body.now st.old) i.now st.old) }
{
    let Some(v) = st.top.stack.pop() else {
        return Ok(stuck(st));
    };
    let out = of_unary(body, i, v, st)?;
    Ok(out)
}

/// Goes on with what a conversion came to. What raises has the operand on the stack.
fn finish_one<Q: Answers>(
    alloc: Global,
    q: &Q,
    body: &Body,
    i: &Instruction,
    v: Value,
    out: Outcome,
    st: &mut State,
) -> Result<StepOut, NoMemory>
    ensures { IfOk result (λ next. next_of next st.new [] ≡ finished (Q.queries q.now) (here_by body.now st.old) i.now st.old.top.stack (with_stack (v ∷ st.old.top.stack) st.old) out) }
{
    match out {
        Outcome::Gives(w) => {
            discard(v);
            let next = gives(body, i, w, st)?;
            Ok(next)
        }
        Outcome::Raises(name) => {
            st.top.stack.push(v)?;
            raise(alloc, q, name, st)
        }
    }
}

/// A conversion of an operand that is off the stack.
fn of_one<Q: Answers>(
    alloc: Global,
    q: &Q,
    body: &Body,
    i: &Instruction,
    v: Value,
    st: &mut State,
) -> Result<StepOut, NoMemory>
    ensures { IfOk result (λ next. next_of next st.new [] ≡ one_over (Q.queries q.now) (here_by body.now st.old) i.now v st.old) }
{
    match convert_of(i.opcode, &v) {
        None => {
            discard(v);
            Ok(stuck(st))
        }
        Some(out) => finish_one(alloc, q, body, i, v, out, st),
    }
}

/// The conversions (III.3.27 to III.3.29).
#[tactic(auto, unfolding(rules::specs::step_rules::Numbers::convert))]
pub fn convert<Q: Answers>(
    alloc: Global,
    q: &Q,
    body: &Body,
    i: &Instruction,
    st: &mut State,
) -> Result<StepOut, NoMemory>
    ensures { IfOk result (λ out. next_of out st.new [] ≡ convert (Q.queries q.now) (here_by body.now st.old) i.now st.old) }
{
    let Some(v) = st.top.stack.pop() else {
        return Ok(stuck(st));
    };
    let out = of_one(alloc, q, body, i, v, st)?;
    Ok(out)
}
