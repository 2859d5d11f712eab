//! `newarr` (III.4.20).

ghost use Rattle.std.specs.Prelude.{◌≡◌, [], drop, replicate, IfOk};
ghost use Rattle.rules.specs.step_rules.Arrays.{new_array_of, new_array_form};
ghost use Rattle.machine_words.specs.cil_words.Steps.{next_of, here_by};
ghost use Rattle.machine_objects.specs.cil_arrays.Counts.{length_found, new_array_by, made_by, new_with};

use crate::cil_arrays::indices::{count_of, natural};
use il_base::cil_values::{Instruction, Obj, State, Use, Value};
use il_base::core_table::CoreName;
use il_base::world_model::{Known, TypeExpr};
use il_base::{NoMemory, Seq};
use machine_numbers::cil_operands::{Refusal, gives, operand, refuse};
use machine_words::cil_closing::{args_of, closed_cell};
use machine_words::cil_queries::Answers;
use machine_words::cil_stores::zero_of;
use machine_words::cil_words::{Body, StepOut, stopped, stuck};
use std::alloc::Global;

/// The most elements of an array.
const ARRAY_LIMIT: usize = 1_048_576;

/// So many copies of a value.
fn copies(alloc: Global, v: &Value, n: usize) -> Result<Seq<Value>, NoMemory>
    ensures { IfOk result (λ cells. cells ≡ replicate n v.now) }
{
    let mut cells = Seq::new(alloc);
    for _ in 0..n {
        let copy = v.copy(alloc)?;
        cells.push(copy)?;
    }
    Ok(cells)
}

/// The length that a value asks for.
fn length_found(v: &Value) -> Result<usize, Refusal>
    ensures { result ≡ length_found v.now }
{
    let Some(n) = count_of(v) else {
        return Err(Refusal::Stuck);
    };
    match natural(n) {
        Some(n) => Ok(n),
        None => Err(Refusal::Raises(CoreName::OverflowException)),
    }
}

/// A new array of a length takes the place of the operand.
#[tactic(auto, unfolding(rules::specs::step_rules::Words::goes_with))]
fn new_of_length(
    alloc: Global,
    body: &Body,
    i: &Instruction,
    ty: TypeExpr,
    zero: Value,
    n: usize,
    st: &mut State,
) -> Result<StepOut, NoMemory>
    ensures { IfOk result (λ out. next_of out st.new [] ≡ new_array_by (here_by body.now st.old) i.now st.old ty zero (drop 1 st.old.top.stack) n) }
{
    if n > ARRAY_LIMIT {
        drop(zero);
        drop(ty);
        return Ok(stopped(st));
    }
    let cells = copies(alloc, &zero, n)?;
    drop(zero);
    let a = st.heap.add(Obj::Array { of: ty, cells })?;
    gives(body, i, 1, Value::Object(a), st)
}

/// A new array of the length that the operand asks for.
#[tactic(auto, unfolding(machine_numbers::specs::cil_operands::Outcomes::refused))]
fn made_by<Q: Answers>(
    alloc: Global,
    q: &Q,
    body: &Body,
    i: &Instruction,
    ty: TypeExpr,
    zero: Value,
    n: Result<usize, Refusal>,
    st: &mut State,
) -> Result<StepOut, NoMemory>
    ensures { IfOk result (λ out. next_of out st.new [] ≡ made_by (Q.queries q.now) (here_by body.now st.old) i.now st.old ty zero (drop 1 st.old.top.stack) n) }
{
    match n {
        Ok(n) => new_of_length(alloc, body, i, ty, zero, n, st),
        Err(why) => {
            drop(zero);
            drop(ty);
            refuse(alloc, q, why, st)
        }
    }
}

/// A new array of these zero values.
fn new_with<Q: Answers>(
    alloc: Global,
    q: &Q,
    body: &Body,
    i: &Instruction,
    ty: TypeExpr,
    zero: Value,
    st: &mut State,
) -> Result<StepOut, NoMemory>
    ensures { IfOk result (λ out. next_of out st.new [] ≡ new_with (Q.queries q.now) (here_by body.now st.old) i.now st.old ty zero) }
{
    let Some((v, _)) = operand(st) else {
        drop(zero);
        drop(ty);
        return Ok(stuck(st));
    };
    let n = length_found(v);
    made_by(alloc, q, body, i, ty, zero, n, st)
}

/// `newarr` of a closed type. One without a zero value stops the run before anything is popped.
fn new_array_of<Q: Answers>(
    alloc: Global,
    q: &Q,
    body: &Body,
    i: &Instruction,
    ty: TypeExpr,
    st: &mut State,
) -> Result<StepOut, NoMemory>
    ensures { IfOk result (λ out. next_of out st.new [] ≡ new_array_of (Q.queries q.now) (here_by body.now st.old) i.now st.old ty) }
{
    match zero_of(alloc, q, &ty)? {
        Some(zero) => new_with(alloc, q, body, i, ty, zero, st),
        None => {
            drop(ty);
            Ok(stopped(st))
        }
    }
}

/// `newarr` (III.4.20).
#[tactic(auto, unfolding(rules::specs::step_rules::Arrays::new_array_form, rules::specs::step_rules::Closing::closed_element))]
pub fn new_array<Q: Answers>(
    alloc: Global,
    q: &Q,
    body: &Body,
    i: &Instruction,
    st: &mut State,
) -> Result<StepOut, NoMemory>
    ensures { IfOk result (λ out. next_of out st.new [] ≡ new_array_form (Q.queries q.now) (here_by body.now st.old) i.now st.old) }
{
    match &i.operand {
        Use::Typ(Known::Good(ty)) => {
            let targs = args_of(&st.top.method.owner);
            match closed_cell(alloc, q, targs, st.top.method.args.as_slice(), ty)? {
                Some(ty) => new_array_of(alloc, q, body, i, ty, st),
                None => Ok(stopped(st)),
            }
        }
        Use::Typ(Known::Bad(_)) => Ok(stopped(st)),
        Use::Nothing => Ok(stuck(st)),
        Use::Number(_) => Ok(stuck(st)),
        Use::Slot(_) => Ok(stuck(st)),
        Use::Target(_) => Ok(stuck(st)),
        Use::Targets(_) => Ok(stuck(st)),
        Use::Method(_) => Ok(stuck(st)),
        Use::Field(_) => Ok(stuck(st)),
        Use::Text(_) => Ok(stuck(st)),
    }
}
