//! The method that a virtual call of a member found.

ghost use Rattle.std.specs.Prelude.{◌≡◌, ◌∷◌, [], IfOk};
ghost use Rattle.il_base.specs.declared.cil_values.value.Value.TheVariants.{Object};
ghost use Rattle.rules.specs.step_rules.CoreWords.{Gives, checked};
ghost use Rattle.rules.specs.step_rules.Core.{found_args, resumed, run_found, simple};
ghost use Rattle.machine_words.specs.cil_closing.Callees.{callee_by};
ghost use Rattle.cil_core.specs.Runs.{runs_on};
ghost use Rattle.cil_core.specs.cil_members.Outs.{gives_by};

use crate::cil_members::{CoreOut, Taken, checked, raised, stopped_member, stuck_member};
use crate::members::simple;
use crate::resuming::resume;
use il_base::cil_values::{CoreCall, State, Value, Waits};
use il_base::core_table::CoreName;
use il_base::{Boxed, NoMemory, Seq};
use machine_frames::cil_dispatch::this_for;
use machine_frames::cil_frames::enter;
use machine_words::cil_closing::Callee;
use machine_words::cil_queries::Answers;
use machine_words::cil_stores::all_fit;
use std::alloc::Global;

/// A value before some others.
fn with_first(first: Value, rest: Seq<Value>) -> Result<Seq<Value>, NoMemory>
    ensures { IfOk result (λ all. all ≡ first ∷ rest) }
{
    let mut items = rest.into_vec();
    items.insert(0, first)?;
    Ok(Seq::from_vec(items))
}

/// `this` as the found method takes it, and the other arguments as its slots keep them.
pub fn found_args<Q: Answers>(
    alloc: Global,
    q: &Q,
    st: &State,
    c: &Callee,
    at: u32,
    rest: Seq<Value>,
) -> Result<Option<Seq<Value>>, NoMemory>
    ensures { IfOk result (λ args. args ≡ found_args (Q.queries q.now) st.now (callee_by c.now) (Object at) rest) }
{
    let Some(this) = this_for(alloc, q, st, c, Value::Object(at))? else {
        return Ok(None);
    };
    let Some(kept) = all_fit(alloc, q, c.signature.get().params.as_slice(), rest)? else {
        return Ok(None);
    };
    let all = with_first(this, kept)?;
    Ok(Some(all))
}

/// The found member is whole in this step, and the calling one goes on.
fn goes_on<Q: Answers>(
    alloc: Global,
    q: &Q,
    member: CoreCall,
    args: Seq<Value>,
    found: CoreCall,
    values: &[Value],
    st: &mut State,
    printed: &mut Vec<u8>,
) -> Result<CoreOut, NoMemory>
    requires { printed.old.items ≡ [] }
    ensures { IfOk result (λ out. (give : Gives) → simple found (Q.queries q.now) values.now st.old (resumed member (Q.queries q.now) args give) ≡ gives_by out st.new printed.new.items give) }
{
    match simple(alloc, q, found, values, st, printed)? {
        CoreOut::Stepped(out) => Ok(CoreOut::Stepped(out)),
        CoreOut::Gave(v) => {
            printed.clear();
            resume(alloc, q, member, args, v, st, printed)
        }
    }
}

/// A found member of the core library, with its arguments as the caller passes them.
fn run_member<Q: Answers>(
    alloc: Global,
    q: &Q,
    member: CoreCall,
    args: Seq<Value>,
    c: &Callee,
    found: CoreCall,
    values: &[Value],
    st: &mut State,
    printed: &mut Vec<u8>,
) -> Result<CoreOut, NoMemory>
    requires { printed.old.items ≡ [] }
    ensures { IfOk result (λ out. (give : Gives) → checked (Q.queries q.now) (callee_by c.now) values.now st.old (λ vs. simple found (Q.queries q.now) vs st.old (resumed member (Q.queries q.now) args give)) ≡ gives_by out st.new printed.new.items give) }
{
    match checked(alloc, q, c, values, st)? {
        Taken::Are(vs) => goes_on(alloc, q, member, args, found, vs.as_slice(), st, printed),
        Taken::Null => raised(alloc, q, CoreName::NullReferenceException, st),
        Taken::Stuck => Ok(stuck_member(st)),
        Taken::Stopped => Ok(stopped_member(st)),
    }
}

/// What was found runs: a member of the core library in this step, a method of the program in a frame for which this waits.
pub(crate) fn run_found<Q: Answers>(
    alloc: Global,
    q: &Q,
    member: CoreCall,
    args: Seq<Value>,
    c: &Callee,
    values: Seq<Value>,
    st: &mut State,
    printed: &mut Vec<u8>,
) -> Result<CoreOut, NoMemory>
    requires { printed.old.items ≡ [] }
    ensures { IfOk result (λ out. (give : Gives) → run_found (Q.queries q.now) member args (callee_by c.now) values st.old give ((Q.queries q.now).core c.now.called.method.0) ≡ gives_by out st.new printed.new.items give) }
{
    match q.core(c.called.method.0) {
        None => {
            let args = Boxed::new(alloc, args)?;
            let out = enter(alloc, q, c, values, Waits::Core(member, args), st)?;
            Ok(CoreOut::Stepped(out))
        }
        Some(found) => run_member(
            alloc,
            q,
            member,
            args,
            c,
            found,
            values.as_slice(),
            st,
            printed,
        ),
    }
}

/// Runs what was found for an object, with these arguments after it.
pub(crate) fn run_on<Q: Answers>(
    alloc: Global,
    q: &Q,
    member: CoreCall,
    args: Seq<Value>,
    c: &Callee,
    at: u32,
    rest: Seq<Value>,
    st: &mut State,
    printed: &mut Vec<u8>,
) -> Result<CoreOut, NoMemory>
    requires { printed.old.items ≡ [] }
    ensures { IfOk result (λ out. (give : Gives) → runs_on (Q.queries q.now) member args at rest st.old give (callee_by c.now) ≡ gives_by out st.new printed.new.items give) }
{
    let Some(values) = found_args(alloc, q, st, c, at, rest)? else {
        return Ok(stuck_member(st));
    };
    run_found(alloc, q, member, args, c, values, st, printed)
}
