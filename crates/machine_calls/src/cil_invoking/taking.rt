//! What a call does before its method runs.

ghost use Rattle.std.specs.Prelude.{◌≡◌, [], Some, IfOk, MatchOption};
ghost use Rattle.il_base.specs.declared.cil_values.state.State.{State};
ghost use Rattle.il_base.specs.declared.cil_values.frame.Prefix.TheVariants.{None as no_prefix};
ghost use Rattle.rules.specs.step_rules.Next.{Next};
ghost use Rattle.rules.specs.step_rules.Words.{taken};
ghost use Rattle.rules.specs.step_rules.Calls.{begun_for};
ghost use Rattle.machine_words.specs.cil_closing.Callees.{callee_by};
ghost use Rattle.machine_words.specs.cil_words.Steps.{next_of};

use il_base::cil_values::{Prefix, Stack, State, Value};
use il_base::{NoMemory, Seq};
use machine_frames::cil_frames::started;
use machine_words::cil_closing::Callee;
use machine_words::cil_queries::Answers;
use machine_words::cil_words::StepOut;
use std::alloc::Global;
use std::mem;

/// Takes the top `n` values off a stack, the lowest of them first. None where there are fewer.
pub fn take_values(
    alloc: Global,
    stack: &mut Stack<Value>,
    n: usize,
) -> Result<Option<Seq<Value>>, NoMemory>
    ensures { IfOk result (λ values. MatchOption values ((taken n stack.old ≡ None) × (stack.new ≡ stack.old)) (λ vs. taken n stack.old ≡ Some (vs, stack.new))) }
{
    let count = stack.len();
    if count < n {
        return Ok(None);
    }
    let mut items = mem::replace(stack, Stack::new(alloc)).into_vec();
    let values = items.split_off(count - n)?;
    *stack = Stack::from_vec(items);
    Ok(Some(Seq::from_vec(values)))
}

/// The prefix of the top frame, which the instruction takes.
pub fn take_prefix(st: &mut State) -> Prefix
    ensures taken { result ≡ st.old.top.prefix }
    ensures rest { st.new ≡ record st.old { top = record st.old.top { prefix = no_prefix } } }
{
    mem::replace(&mut st.top.prefix, Prefix::None)
}

/// A static method's type, and that of a constructor, is begun (II.10.5.3). None where the instruction goes on, with the state
/// as it was.
#[tactic(auto, unfolding(rules::specs::step_rules::Calls::begun_for))]
pub fn begun_for<Q: Answers>(
    alloc: Global,
    q: &Q,
    c: &Callee,
    st: &mut State,
) -> Result<Option<StepOut>, NoMemory>
    ensures { IfOk result (λ over. MatchOption over ((st.new ≡ st.old) × ((f : State → Next) → begun_for (Q.queries q.now) (callee_by c.now) st.old f ≡ f st.old)) (λ out. (f : State → Next) → begun_for (Q.queries q.now) (callee_by c.now) st.old f ≡ next_of out st.new [])) }
{
    if c.signature.get().this && !c.method.constructor {
        return Ok(None);
    }
    started(alloc, q, false, &c.called.owner, st)
}
