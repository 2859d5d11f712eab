//! Methods that reflection calls run: a member of the core library within the step, in a frame of its own, a method of the program in a
//! frame for which the member that called it waits.

ghost use Rattle.std.specs.Prelude.{◌≡◌, [], true, IfOk};
ghost use Rattle.rules.specs.step_rules.CoreWords.{Gives};
ghost use Rattle.rules.specs.step_rules.Core.{gives_called, reflected_member, runs_called, runs_member};
ghost use Rattle.machine_words.specs.cil_closing.Callees.{callee_by};
ghost use Rattle.cil_core.specs.cil_members.Outs.{gives_by};
ghost use Rattle.cil_reflect.specs.Aims.{again};

use crate::fields::{field_get, field_set};
use crate::frames::leave;
use cil_core::cil_members::{CoreOut, Taken, checked, raised, stopped_member, stuck_member};
use cil_core::{own_member, resume};
use il_base::cil_values::{CoreCall, State, Value, Waits};
use il_base::core_table::CoreName;
use il_base::{Boxed, NoMemory, Seq};
use machine_frames::cil_frames::{enter, enter_with};
use machine_words::cil_closing::Callee;
use machine_words::cil_queries::Answers;
use std::alloc::Global;
use std::mem;

/// A member that calls no method of a member object. `outside` says whether reflection called it, `back` has the arguments with which the
/// call comes again.
#[tactic(auto, unfolding(rules::specs::step_rules::Core::reflected_member))]
pub(crate) fn reflected_member<Q: Answers>(
    alloc: Global,
    q: &Q,
    outside: bool,
    back: &[Value],
    member: CoreCall,
    args: &[Value],
    st: &mut State,
    printed: &mut Vec<u8>,
) -> Result<CoreOut, NoMemory>
    requires { printed.old.items ≡ [] }
    ensures { IfOk result (λ out. (give : Gives) → reflected_member (again outside back.now st.old) member (Q.queries q.now) args.now st.old give ≡ gives_by out st.new printed.new.items give) }
{
    match member {
        CoreCall::FieldGet => field_get(alloc, q, outside, back, args, st),
        CoreCall::FieldSet => field_set(alloc, q, outside, back, args, st),
        _ => own_member(alloc, q, member, args, st, printed),
    }
}

/// The member that called goes on with what the called one gave, outside of that one's frame.
fn gives_called<Q: Answers>(
    alloc: Global,
    q: &Q,
    member: CoreCall,
    keep: Seq<Value>,
    v: Option<Value>,
    st: &mut State,
    printed: &mut Vec<u8>,
) -> Result<CoreOut, NoMemory>
    ensures { IfOk result (λ out. (give : Gives) → gives_called (Q.queries q.now) member keep give st.old v printed.old.items ≡ gives_by out st.new printed.new.items give) }
{
    leave(st);
    let mut more = Vec::new(alloc);
    match resume(alloc, q, member, keep, v, st, &mut more)? {
        CoreOut::Gave(w) => Ok(CoreOut::Gave(w)),
        CoreOut::Stepped(out) => {
            drop(mem::replace(printed, more));
            Ok(CoreOut::Stepped(out))
        }
    }
}

/// The called member runs, with its arguments as it takes them.
fn runs_within<Q: Answers>(
    alloc: Global,
    q: &Q,
    member: CoreCall,
    keep: Seq<Value>,
    back: &[Value],
    found: CoreCall,
    args: &[Value],
    st: &mut State,
    printed: &mut Vec<u8>,
) -> Result<CoreOut, NoMemory>
    requires { printed.old.items ≡ [] }
    ensures { IfOk result (λ out. (give : Gives) → reflected_member (again true back.now st.old) found (Q.queries q.now) args.now st.old (gives_called (Q.queries q.now) member keep give) ≡ gives_by out st.new printed.new.items give) }
{
    match reflected_member(alloc, q, true, back, found, args, st, printed)? {
        CoreOut::Stepped(out) => Ok(CoreOut::Stepped(out)),
        CoreOut::Gave(v) => gives_called(alloc, q, member, keep, v, st, printed),
    }
}

/// A member of the core library that reflection calls is whole in this step, in a frame of its own.
fn runs_member<Q: Answers>(
    alloc: Global,
    q: &Q,
    member: CoreCall,
    keep: Seq<Value>,
    back: &[Value],
    c: &Callee,
    values: Seq<Value>,
    found: CoreCall,
    st: &mut State,
    printed: &mut Vec<u8>,
) -> Result<CoreOut, NoMemory>
    requires { printed.old.items ≡ [] }
    ensures { IfOk result (λ out. (give : Gives) → runs_member (Q.queries q.now) member keep back.now (callee_by c.now) values st.old give found ≡ gives_by out st.new printed.new.items give) }
{
    let args = Value::copy_all(alloc, values.as_slice())?;
    let kept = Value::copy_all(alloc, keep.as_slice())?;
    let waits = Waits::Core(member, Boxed::new(alloc, kept)?);
    enter_with(alloc, c, args, Seq::new(alloc), waits, st)?;
    match checked(alloc, q, c, values.as_slice(), st)? {
        Taken::Are(vs) => {
            runs_within(
                alloc,
                q,
                member,
                keep,
                back,
                found,
                vs.as_slice(),
                st,
                printed,
            )
        }
        Taken::Null => raised(alloc, q, CoreName::NullReferenceException, st),
        Taken::Stuck => Ok(stuck_member(st)),
        Taken::Stopped => Ok(stopped_member(st)),
    }
}

/// The called method runs: a member of the core library in this step, a method of the program in a frame for which this waits.
pub(crate) fn runs_called<Q: Answers>(
    alloc: Global,
    q: &Q,
    member: CoreCall,
    keep: Seq<Value>,
    back: &[Value],
    c: &Callee,
    values: Seq<Value>,
    st: &mut State,
    printed: &mut Vec<u8>,
) -> Result<CoreOut, NoMemory>
    requires { printed.old.items ≡ [] }
    ensures { IfOk result (λ out. (give : Gives) → runs_called (Q.queries q.now) member keep back.now (callee_by c.now) values st.old give ((Q.queries q.now).core c.now.called.method.0) ≡ gives_by out st.new printed.new.items give) }
{
    match q.core(c.called.method.0) {
        Some(found) => runs_member(alloc, q, member, keep, back, c, values, found, st, printed),
        None => {
            let waits = Waits::Core(member, Boxed::new(alloc, keep)?);
            let out = enter(alloc, q, c, values, waits, st)?;
            Ok(CoreOut::Stepped(out))
        }
    }
}
