//! `ret`.

ghost use Rattle.std.specs.Prelude.{◌≡◌, [], ◌∷◌, IfOk, MatchOption, None};
ghost use Rattle.il_base.specs.declared.world_model.expr.TypeExpr.{TypeExpr};
ghost use Rattle.std.specs.List.{list_any};
ghost use Rattle.rules.specs.step_rules.Queries.{Queries};
ghost use Rattle.rules.specs.step_rules.Returns.{in_block, no_value, one_value, return, returned, returns};
ghost use Rattle.machine_words.specs.cil_words.Steps.{here_by, next_of};

use crate::cil_returns::back::back;
use il_base::NoMemory;
use il_base::cil_values::{Clause, Code, Instruction, Signature, Stack, State, Value};
use il_base::world_model::{Known, TypeExpr};
use machine_frames::cil_raising::{is_in_handler, is_in_try};
use machine_words::cil_closing::{args_of, closed_return, is_void};
use machine_words::cil_queries::Answers;
use machine_words::cil_stores::fits;
use machine_words::cil_words::{Body, StepOut, stopped, stuck};
use std::alloc::Global;

/// The one value of a stack. None where there are none or more.
fn only_value(stack: &Stack<Value>) -> Option<&Value>
    ensures { MatchOption result ((q : Queries) → (e : TypeExpr) → one_value q e stack.now ≡ None) (λ v. stack.now ≡ v.now ∷ []) }
{
    let items = stack.as_slice();
    if items.len() != 1 {
        return None;
    }
    Some(&items[0])
}

/// What a method of this closed return type returns with this stack: nothing, or its one value. None where the stack is another.
#[tactic(auto, unfolding(rules::specs::step_rules::Returns::returned))]
fn returned<Q: Answers>(
    alloc: Global,
    q: &Q,
    ret: &TypeExpr,
    stack: &Stack<Value>,
) -> Result<Option<Option<Value>>, NoMemory>
    ensures { IfOk result (λ v. v ≡ returned (Q.queries q.now) ret.now stack.now) }
{
    if is_void(ret) {
        return Ok(no_value(stack));
    }
    let Some(v) = only_value(stack) else {
        return Ok(None);
    };
    let v = v.copy(alloc)?;
    match fits(alloc, q, ret, v)? {
        None => Ok(None),
        Some(kept) => Ok(Some(Some(kept))),
    }
}

fn no_value(stack: &Stack<Value>) -> Option<Option<Value>>
    ensures { result ≡ no_value stack.now }
{
    if stack.len() != 0 {
        return None;
    }
    Some(None)
}

/// Whether an IL offset lies in a try block or a handler.
fn in_block(c: &Clause, at: u32) -> bool
    ensures { result ≡ in_block at c.now }
{
    is_in_try(c, at) || is_in_handler(c, at)
}

fn is_in_blocks(code: &Code, at: u32) -> bool
    ensures { result ≡ list_any (in_block at) code.now.clauses }
{
    code.clauses.as_slice().iter().any(|c| in_block(c, at))
}

fn returns<Q: Answers>(
    alloc: Global,
    q: &Q,
    body: &Body,
    sig: &Signature,
    st: &mut State,
    printed: &mut Vec<u8>,
) -> Result<StepOut, NoMemory>
    requires { printed.old.items ≡ [] }
    ensures { IfOk result (λ out. next_of out st.new printed.new.items ≡ returns (Q.queries q.now) (here_by body.now st.old) st.old sig.now) }
{
    let targs = args_of(&st.top.method.owner);
    let margs = st.top.method.args.as_slice();
    let Some(ret) = closed_return(alloc, q, targs, margs, &sig.ret)? else {
        return Ok(stopped(st));
    };
    let Some(v) = returned(alloc, q, &ret, &st.top.stack)? else {
        return Ok(stuck(st));
    };
    back(alloc, q, v, st, printed)
}

/// `ret` (III.3.57). In a try block or a handler it is stuck.
#[tactic(auto, using(crate::proofs::lemmas::cil_returns::Opened::return_opened))]
pub fn return_form<Q: Answers>(
    alloc: Global,
    q: &Q,
    body: &Body,
    i: &Instruction,
    st: &mut State,
    printed: &mut Vec<u8>,
) -> Result<StepOut, NoMemory>
    requires { printed.old.items ≡ [] }
    ensures { IfOk result (λ out. next_of out st.new printed.new.items ≡ return (Q.queries q.now) (here_by body.now st.old) i.now st.old) }
{
    if is_in_blocks(body.code, i.at) {
        return Ok(stuck(st));
    }
    match &body.method.signature {
        Known::Bad(_) => Ok(stuck(st)),
        Known::Good(sig) => returns(alloc, q, body, sig, st, printed),
    }
}
