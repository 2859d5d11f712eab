//! What is called runs.

ghost use Rattle.std.specs.Prelude.{◌≡◌, [], IfOk};
ghost use Rattle.rules.specs.step_rules.CoreWords.{Gives};
ghost use Rattle.rules.specs.step_rules.Words.{given};
ghost use Rattle.rules.specs.step_rules.Frames.{enter};
ghost use Rattle.rules.specs.step_rules.Calls.{invoke, runs, runs_on, slot_values};
ghost use Rattle.machine_words.specs.cil_closing.Callees.{callee_by};
ghost use Rattle.cil_core.specs.cil_members.Outs.{gives_by};
ghost use Rattle.machine_frames.specs.cil_dispatch.Found.{goes_to};
ghost use Rattle.machine_words.specs.cil_words.Steps.{here_by, next_of};

use crate::cil_invoking::args::{slot_values, with_first};
use crate::cil_invoking::going::gives_result;
use cil_core::cil_members::CoreOut;
use cil_reflect::core_call;
use il_base::cil_values::{Instruction, State, Value, Waits};
use il_base::{NoMemory, Seq};
use machine_frames::cil_dispatch::{Target, this_for};
use machine_frames::cil_frames::enter;
use machine_words::cil_closing::Callee;
use machine_words::cil_queries::Answers;
use machine_words::cil_words::{Body, StepOut, stopped, stuck};
use std::alloc::Global;

/// A method is entered with these arguments. The top frame waits.
fn enters<Q: Answers>(
    alloc: Global,
    q: &Q,
    c: &Callee,
    values: Seq<Value>,
    waits: Waits,
    st: &mut State,
) -> Result<StepOut, NoMemory>
    ensures { IfOk result (λ out. next_of out st.new [] ≡ given (slot_values (Q.queries q.now) (callee_by c.now).signature values) st.old (λ ws. enter (Q.queries q.now) (callee_by c.now) ws waits st.old)) }
{
    let Some(kept) = slot_values(alloc, q, c.signature.get(), values)? else {
        return Ok(stuck(st));
    };
    enter(alloc, q, c, kept, waits, st)
}

/// A method runs with these arguments: a member of the core library in this step, another in a frame for which this one waits.
#[tactic(auto, unfolding(rules::specs::step_rules::Calls::invoke))]
pub fn invoke<Q: Answers>(
    alloc: Global,
    q: &Q,
    c: &Callee,
    values: Seq<Value>,
    waits: Waits,
    st: &mut State,
    printed: &mut Vec<u8>,
) -> Result<CoreOut, NoMemory>
    requires { printed.old.items ≡ [] }
    ensures { IfOk result (λ out. (give : Gives) → invoke (Q.queries q.now) (callee_by c.now) values waits st.old give ≡ gives_by out st.new printed.new.items give) }
{
    match q.core(c.called.method.0) {
        Some(member) => core_call(alloc, q, c, member, values, st, printed),
        None => {
            let out = enters(alloc, q, c, values, waits, st)?;
            Ok(CoreOut::Stepped(out))
        }
    }
}

/// A called method runs with these arguments, and what it gives is pushed.
#[tactic(auto, unfolding(rules::specs::step_rules::Words::goes_with))]
pub fn runs<Q: Answers>(
    alloc: Global,
    q: &Q,
    body: &Body,
    i: &Instruction,
    c: &Callee,
    values: Seq<Value>,
    st: &mut State,
    printed: &mut Vec<u8>,
) -> Result<StepOut, NoMemory>
    requires { printed.old.items ≡ [] }
    ensures { IfOk result (λ out. next_of out st.new printed.new.items ≡ runs (Q.queries q.now) (here_by body.now st.old) i.now (callee_by c.now) values st.old) }
{
    match invoke(alloc, q, c, values, Waits::Nothing, st, printed)? {
        CoreOut::Stepped(out) => Ok(out),
        CoreOut::Gave(v) => gives_result(body, i, v, st),
    }
}

/// A method that was found runs, with `this` as it takes it.
pub fn runs_on<Q: Answers>(
    alloc: Global,
    q: &Q,
    body: &Body,
    i: &Instruction,
    values: Seq<Value>,
    this: Value,
    c: &Callee,
    st: &mut State,
    printed: &mut Vec<u8>,
) -> Result<StepOut, NoMemory>
    requires { printed.old.items ≡ [] }
    ensures { IfOk result (λ out. next_of out st.new printed.new.items ≡ runs_on (Q.queries q.now) (here_by body.now st.old) i.now values st.old this (callee_by c.now)) }
{
    let Some(this) = this_for(alloc, q, st, c, this)? else {
        return Ok(stuck(st));
    };
    let all = with_first(alloc, this, values)?;
    runs(alloc, q, body, i, c, all, st, printed)
}

/// What dispatch gave for a called method runs.
pub fn runs_found<Q: Answers>(
    alloc: Global,
    q: &Q,
    body: &Body,
    i: &Instruction,
    values: Seq<Value>,
    this: Value,
    c: &Callee,
    found: &Target,
    st: &mut State,
    printed: &mut Vec<u8>,
) -> Result<StepOut, NoMemory>
    requires { printed.old.items ≡ [] }
    ensures { IfOk result (λ out. next_of out st.new printed.new.items ≡ goes_to found.now (callee_by c.now) st.old (runs_on (Q.queries q.now) (here_by body.now st.old) i.now values st.old this)) }
{
    match found {
        Target::Itself => runs_on(alloc, q, body, i, values, this, c, st, printed),
        Target::Other(d) => runs_on(alloc, q, body, i, values, this, d, st, printed),
        Target::Stuck => Ok(stuck(st)),
        Target::Stopped => Ok(stopped(st)),
    }
}
