//! Members that call nothing.

ghost use Rattle.std.specs.Prelude.{◌≡◌, [], IfOk};
ghost use Rattle.rules.specs.step_rules.CoreWords.{Gives};
ghost use Rattle.rules.specs.step_rules.Core.{simple};
ghost use Rattle.cil_core.specs.cil_members.Outs.{gives_by};

use crate::cil_console_members::{array_length, fill_array, line_end, print, read_line, read_unit};
use crate::cil_exceptions::{
    exception_inner, exception_parameter, exception_text, get_inner, get_message,
};
use crate::cil_members::{CoreOut, stuck_member};
use crate::cil_object_members::{
    halt, idle, int_compare, int_equals, number_is, number_text, same, type_name,
};
use crate::cil_text_members::{
    int_parse, string_compare, string_concat, string_from, string_index, string_is,
    string_is_empty, string_itself, string_length, string_other, string_part, string_same,
    string_unit,
};
use crate::cil_type_members::{
    member_name, member_owner, object_type, type_fits, type_from_handle, type_full_name, type_has,
    type_is_array, type_is_interface, type_is_value, type_namespace, type_other, type_text,
};
use il_base::NoMemory;
use il_base::cil_values::{CoreCall, State, Value};
use machine_words::cil_queries::Answers;
use std::alloc::Global;

/// A member that calls no method and searches for nothing, with its arguments as it takes them. Others are stuck here.
#[tactic(auto, unfolding(rules::specs::step_rules::Core::simple))]
pub(crate) fn simple<Q: Answers>(
    alloc: Global,
    q: &Q,
    member: CoreCall,
    args: &[Value],
    st: &mut State,
    printed: &mut Vec<u8>,
) -> Result<CoreOut, NoMemory>
    requires { printed.old.items ≡ [] }
    ensures { IfOk result (λ out. (give : Gives) → simple member (Q.queries q.now) args.now st.old give ≡ gives_by out st.new printed.new.items give) }
{
    match member {
        CoreCall::Halts => Ok(halt(args, st)),
        CoreCall::Idle => Ok(idle(args, st)),
        CoreCall::TypeName => type_name(alloc, q, args, st),
        CoreCall::IsObject => Ok(same(args, st)),
        CoreCall::SameReference => Ok(same(args, st)),
        CoreCall::NumberText(code) => number_text(alloc, code, args, st),
        CoreCall::NumberIs(code) => Ok(number_is(code, args, st)),
        CoreCall::IntEquals => Ok(int_equals(args, st)),
        CoreCall::IntCompare => Ok(int_compare(args, st)),
        CoreCall::IntParse => int_parse(alloc, q, args, st),
        CoreCall::StringLength => string_length(args, st),
        CoreCall::StringUnit => string_unit(alloc, q, args, st),
        CoreCall::StringConcat => string_concat(alloc, args, st),
        CoreCall::StringSame => Ok(string_same(args, st)),
        CoreCall::StringOther => Ok(string_other(args, st)),
        CoreCall::StringIs => Ok(string_is(args, st)),
        CoreCall::StringItself => string_itself(alloc, args, st),
        CoreCall::StringFrom => string_from(alloc, q, args, st),
        CoreCall::StringPart => string_part(alloc, q, args, st),
        CoreCall::StringIndex => string_index(args, st),
        CoreCall::StringIsEmpty => Ok(string_is_empty(args, st)),
        CoreCall::StringCompare => Ok(string_compare(args, st)),
        CoreCall::ArrayLength => array_length(args, st),
        CoreCall::Prints(line, kind) => print(alloc, line, kind, args, st, printed),
        CoreCall::PrintsLineEnd => line_end(args, st, printed),
        CoreCall::ReadLine => read_line(alloc, args, st),
        CoreCall::ReadUnit => Ok(read_unit(args, st)),
        CoreCall::ExceptionPlain => Ok(idle(args, st)),
        CoreCall::ExceptionText => exception_text(alloc, q, args, st),
        CoreCall::ExceptionInner => exception_inner(alloc, q, args, st),
        CoreCall::ExceptionParameter(name) => exception_parameter(alloc, q, name, args, st),
        CoreCall::GetMessage => get_message(alloc, q, args, st),
        CoreCall::GetInner => get_inner(alloc, q, args, st),
        CoreCall::FillArray => fill_array(alloc, q, args, st),
        CoreCall::TypeFromHandle => type_from_handle(alloc, args, st),
        CoreCall::TypeOf => object_type(alloc, q, args, st),
        CoreCall::TypeText => type_text(alloc, q, args, st),
        CoreCall::TypeFullName => type_full_name(alloc, q, args, st),
        CoreCall::TypeNamespace => type_namespace(alloc, q, args, st),
        CoreCall::MemberName => member_name(alloc, q, args, st),
        CoreCall::MemberOwner => member_owner(alloc, q, args, st),
        CoreCall::TypeSame => Ok(same(args, st)),
        CoreCall::TypeOther => Ok(type_other(args, st)),
        CoreCall::TypeIs => Ok(same(args, st)),
        CoreCall::TypeFits => type_fits(alloc, q, args, st),
        CoreCall::TypeHas => type_has(alloc, q, args, st),
        CoreCall::TypeIsValue => type_is_value(alloc, q, args, st),
        CoreCall::TypeIsInterface => Ok(type_is_interface(q, args, st)),
        CoreCall::TypeIsArray => Ok(type_is_array(args, st)),
        CoreCall::TypeFind(_) => Ok(stuck_member(st)),
        CoreCall::MemberFind(_) => Ok(stuck_member(st)),
        CoreCall::MemberList(_) => Ok(stuck_member(st)),
        CoreCall::MethodIsStatic => Ok(stuck_member(st)),
        CoreCall::MemberType(_) => Ok(stuck_member(st)),
        CoreCall::MemberSame => Ok(stuck_member(st)),
        CoreCall::MemberOther => Ok(stuck_member(st)),
        CoreCall::Create => Ok(stuck_member(st)),
        CoreCall::CreateOf => Ok(stuck_member(st)),
        CoreCall::Invoke => Ok(stuck_member(st)),
        CoreCall::FieldGet => Ok(stuck_member(st)),
        CoreCall::FieldSet => Ok(stuck_member(st)),
        CoreCall::PropertyGet => Ok(stuck_member(st)),
        CoreCall::PropertySet => Ok(stuck_member(st)),
        CoreCall::AreEqual => Ok(stuck_member(st)),
    }
}
