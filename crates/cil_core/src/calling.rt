//! Members that call no method of a member object.

ghost use Rattle.std.specs.Prelude.{◌≡◌, [], IfOk};
ghost use Rattle.rules.specs.step_rules.CoreWords.{Gives};
ghost use Rattle.rules.specs.step_rules.Core.{own_member};
ghost use Rattle.cil_core.specs.cil_members.Outs.{gives_by};

use crate::cil_members::CoreOut;
use crate::cil_type_members::{
    find_form, member_find, member_list, member_other, member_same, member_type, method_is_static,
};
use crate::making::create;
use crate::members::simple;
use crate::virtual_members::{equal_form, print_object};
use il_base::NoMemory;
use il_base::cil_values::{CoreCall, Printed, State, Value};
use machine_words::cil_queries::Answers;
use std::alloc::Global;

/// A member that calls no method of a member object, with its arguments as it takes them. Others are stuck here.
#[tactic(auto, unfolding(rules::specs::step_rules::Core::own_member))]
pub fn own_member<Q: Answers>(
    alloc: Global,
    q: &Q,
    called: CoreCall,
    args: &[Value],
    st: &mut State,
    printed: &mut Vec<u8>,
) -> Result<CoreOut, NoMemory>
    requires { printed.old.items ≡ [] }
    ensures { IfOk result (λ out. (give : Gives) → own_member called (Q.queries q.now) args.now st.old give ≡ gives_by out st.new printed.new.items give) }
{
    match called {
        CoreCall::Prints(line, kind) => match kind {
            Printed::OfObject => print_object(alloc, q, line, args, st, printed),
            Printed::OfString => simple(alloc, q, called, args, st, printed),
            Printed::OfNumber => simple(alloc, q, called, args, st, printed),
            Printed::OfBool => simple(alloc, q, called, args, st, printed),
            Printed::OfChar => simple(alloc, q, called, args, st, printed),
        },
        CoreCall::AreEqual => equal_form(alloc, q, args, st, printed),
        CoreCall::TypeFind(throws) => find_form(alloc, q, throws, args, st),
        CoreCall::Create => create(alloc, q, args, st, printed),
        CoreCall::MemberFind(kind) => member_find(alloc, q, kind, args, st),
        CoreCall::MemberList(kind) => member_list(alloc, q, kind, args, st),
        CoreCall::MethodIsStatic => Ok(method_is_static(q, args, st)),
        CoreCall::MemberType(_) => member_type(alloc, q, args, st),
        CoreCall::MemberSame => Ok(member_same(q, args, st)),
        CoreCall::MemberOther => Ok(member_other(q, args, st)),
        _ => simple(alloc, q, called, args, st, printed),
    }
}
