//! Calls of members of the core library.

ghost use Rattle.std.specs.Prelude.{◌≡◌, [], IfOk};
ghost use Rattle.rules.specs.step_rules.CoreWords.{Gives};
ghost use Rattle.rules.specs.step_rules.Core.{core_call, field_form, member, member_of};
ghost use Rattle.machine_words.specs.cil_closing.Callees.{callee_by};
ghost use Rattle.cil_core.specs.cil_members.Outs.{gives_by};

use crate::invoking::{invoke, property_get, property_set};
use crate::running::reflected_member;
use cil_core::cil_members::{CoreOut, Taken, checked, raised, stopped_member, stuck_member};
use cil_core::{create_of, own_member};
use il_base::cil_values::{CoreCall, State, Value};
use il_base::core_table::CoreName;
use il_base::world_model::TypeExpr;
use il_base::{NoMemory, Seq};
use machine_words::cil_closing::Callee;
use machine_words::cil_queries::Answers;
use std::alloc::Global;

/// GetValue or SetValue of FieldInfo, called by the program.
#[tactic(auto, unfolding(rules::specs::step_rules::Core::field_form))]
fn field_form<Q: Answers>(
    alloc: Global,
    q: &Q,
    member: CoreCall,
    args: &[Value],
    st: &mut State,
    printed: &mut Vec<u8>,
) -> Result<CoreOut, NoMemory>
    requires { printed.old.items ≡ [] }
    ensures { IfOk result (λ out. (give : Gives) → field_form member (Q.queries q.now) args.now st.old give ≡ gives_by out st.new printed.new.items give) }
{
    let out = reflected_member(alloc, q, false, args, member, args, st, printed)?;
    Ok(out)
}

/// A member with its arguments as it takes them.
#[tactic(auto, unfolding(rules::specs::step_rules::Core::member))]
fn member<Q: Answers>(
    alloc: Global,
    q: &Q,
    called: CoreCall,
    args: &[Value],
    st: &mut State,
    printed: &mut Vec<u8>,
) -> Result<CoreOut, NoMemory>
    requires { printed.old.items ≡ [] }
    ensures { IfOk result (λ out. (give : Gives) → member called (Q.queries q.now) args.now st.old give ≡ gives_by out st.new printed.new.items give) }
{
    match called {
        CoreCall::Invoke => invoke(alloc, q, args, st, printed),
        CoreCall::PropertyGet => property_get(alloc, q, args, st, printed),
        CoreCall::PropertySet => property_set(alloc, q, args, st, printed),
        CoreCall::FieldGet => field_form(alloc, q, CoreCall::FieldGet, args, st, printed),
        CoreCall::FieldSet => field_form(alloc, q, CoreCall::FieldSet, args, st, printed),
        _ => own_member(alloc, q, called, args, st, printed),
    }
}

/// A member with the type arguments of its call.
#[tactic(auto, unfolding(rules::specs::step_rules::Core::member_of))]
fn member_of<Q: Answers>(
    alloc: Global,
    q: &Q,
    targs: &[TypeExpr],
    called: CoreCall,
    args: &[Value],
    st: &mut State,
    printed: &mut Vec<u8>,
) -> Result<CoreOut, NoMemory>
    requires { printed.old.items ≡ [] }
    ensures { IfOk result (λ out. (give : Gives) → member_of targs.now called (Q.queries q.now) args.now st.old give ≡ gives_by out st.new printed.new.items give) }
{
    match called {
        CoreCall::CreateOf => create_of(alloc, q, targs, args, st, printed),
        _ => member(alloc, q, called, args, st, printed),
    }
}

/// A call of a member with all its arguments, `this` first.
#[tactic(auto, unfolding(rules::specs::step_rules::Core::core_call))]
pub fn core_call<Q: Answers>(
    alloc: Global,
    q: &Q,
    c: &Callee,
    called: CoreCall,
    args: Seq<Value>,
    st: &mut State,
    printed: &mut Vec<u8>,
) -> Result<CoreOut, NoMemory>
    requires { printed.old.items ≡ [] }
    ensures { IfOk result (λ out. (give : Gives) → core_call (Q.queries q.now) (callee_by c.now) called args st.old give ≡ gives_by out st.new printed.new.items give) }
{
    match checked(alloc, q, c, args.as_slice(), st)? {
        Taken::Are(values) => {
            let targs = c.called.args.as_slice();
            member_of(alloc, q, targs, called, values.as_slice(), st, printed)
        }
        Taken::Null => raised(alloc, q, CoreName::NullReferenceException, st),
        Taken::Stuck => Ok(stuck_member(st)),
        Taken::Stopped => Ok(stopped_member(st)),
    }
}
