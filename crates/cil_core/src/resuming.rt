//! A member goes on with what the method that it called returned.

ghost use Rattle.std.specs.Prelude.{◌≡◌, ℕ, List, ◌∷◌, [], IfOk, unwrap_or};
ghost use Rattle.std.specs.Option.{option_and_then};
ghost use Rattle.il_base.specs.declared.cil_values.value.Value.TheVariants.{Object};
ghost use Rattle.rules.specs.step_rules.Words.{object_at};
ghost use Rattle.rules.specs.step_rules.Places.{boxed_in};
ghost use Rattle.il_base.specs.declared.cil_values.value.Value.{Value};
ghost use Rattle.rules.specs.step_rules.CoreWords.{Gives};
ghost use Rattle.rules.specs.step_rules.Core.{gives_first, gives_unboxed, with_option, with_result, without_result};
ghost use Rattle.rules.specs.step_rules.CoreConsole.{print_form};
ghost use Rattle.rules.specs.step_rules.Queries.{Queries};
ghost use Rattle.il_base.specs.declared.cil_values.core_call.Printed.TheVariants.{OfObject};
ghost use Rattle.il_base.specs.declared.cil_values.core_call.CoreCall.TheVariants.{AreEqual};
ghost use Rattle.cil_core.specs.cil_members.Outs.{KeepsFrames, gives_by};

use crate::called::gives_returned;
use crate::cil_console_members::print;
use crate::cil_members::{CoreOut, gives_value, stuck_member};
use il_base::cil_values::{CoreCall, Printed, State, Value};
use il_base::{NoMemory, Seq, element};
use machine_words::cil_places::boxed_value;
use machine_words::cil_queries::Answers;
use machine_words::cil_stores::narrowed;
use std::alloc::Global;

/// Prints what ToString() of an object gave.
fn print_result(
    alloc: Global,
    line: bool,
    v: Value,
    st: &State,
    printed: &mut Vec<u8>,
) -> Result<CoreOut, NoMemory>
    requires { printed.old.items ≡ [] }
    ensures { IfOk result (λ out. (q : Queries) (give : Gives) → print_form line OfObject q (v ∷ []) st.now give ≡ gives_by out st.now printed.new.items give) }
{
    let mut shown = Seq::new(alloc);
    shown.push(v)?;
    print(
        alloc,
        line,
        Printed::OfObject,
        shown.as_slice(),
        st,
        printed,
    )
}

/// Equals(object) gave a truth value.
fn equal_result(v: &Value, st: &State) -> CoreOut
    ensures gives { (q : Queries) (args : List Value) (bytes : List ℕ) (give : Gives) → bytes ≡ [] → with_result AreEqual q args v.now st.now give ≡ gives_by result st.now bytes give }
    ensures frames { KeepsFrames result st.now st.now }
{
    match narrowed(element::BOOLEAN, v) {
        None => stuck_member(st),
        Some(b) => gives_value(st, b),
    }
}

/// The member goes on with a value.
fn with_result<Q: Answers>(
    alloc: Global,
    q: &Q,
    member: CoreCall,
    args: &[Value],
    v: Value,
    st: &mut State,
    printed: &mut Vec<u8>,
) -> Result<CoreOut, NoMemory>
    requires { printed.old.items ≡ [] }
    ensures gives { IfOk result (λ out. (give : Gives) → with_result member (Q.queries q.now) args.now v st.old give ≡ gives_by out st.new printed.new.items give) }
    ensures frames { IfOk result (λ out. KeepsFrames out st.old st.new) }
{
    match member {
        CoreCall::Prints(line, kind) => match kind {
            Printed::OfObject => print_result(alloc, line, v, st, printed),
            Printed::OfString => Ok(stuck_member(st)),
            Printed::OfNumber => Ok(stuck_member(st)),
            Printed::OfBool => Ok(stuck_member(st)),
            Printed::OfChar => Ok(stuck_member(st)),
        },
        CoreCall::AreEqual => Ok(equal_result(&v, st)),
        CoreCall::Invoke => gives_returned(alloc, q, CoreCall::Invoke, args, v, st),
        CoreCall::PropertyGet => gives_returned(alloc, q, CoreCall::PropertyGet, args, v, st),
        CoreCall::PropertySet => Ok(CoreOut::Gave(None)),
        _ => Ok(stuck_member(st)),
    }
}

/// The first argument: the object that a constructor made.
fn gives_first(alloc: Global, args: &[Value], st: &State) -> Result<CoreOut, NoMemory>
    ensures { IfOk result (λ out. (give : Gives) → gives_first args.now st.now give ≡ gives_by out st.now [] give) }
{
    match args {
        [] => Ok(stuck_member(st)),
        [v, ..] => {
            let copy = v.copy(alloc)?;
            Ok(gives_value(st, copy))
        }
    }
}

/// The value in the box with a number, or the object that is none.
fn unboxed(alloc: Global, at: u32, st: &State) -> Result<Value, NoMemory>
    ensures { IfOk result (λ w. w ≡ unwrap_or (option_and_then boxed_in (object_at st.now at)) (Object at)) }
{
    match boxed_value(alloc, st, at)? {
        Some(w) => Ok(w),
        None => Ok(Value::Object(at)),
    }
}

/// The first argument, out of its box.
fn gives_unboxed(alloc: Global, args: &[Value], st: &State) -> Result<CoreOut, NoMemory>
    ensures { IfOk result (λ out. (give : Gives) → gives_unboxed args.now st.now give ≡ gives_by out st.now [] give) }
{
    let [v, ..] = args else {
        return Ok(stuck_member(st));
    };
    match v {
        Value::Object(at) => {
            let w = unboxed(alloc, *at, st)?;
            Ok(gives_value(st, w))
        }
        Value::Null => Ok(stuck_member(st)),
        Value::I4(_) => Ok(stuck_member(st)),
        Value::I8(_) => Ok(stuck_member(st)),
        Value::Native(_) => Ok(stuck_member(st)),
        Value::Pointer(_) => Ok(stuck_member(st)),
        Value::Struct(_, _) => Ok(stuck_member(st)),
        Value::Handle(_) => Ok(stuck_member(st)),
        Value::FieldHandle(_) => Ok(stuck_member(st)),
    }
}

/// The method that the member called returned nothing.
fn without_result(
    alloc: Global,
    member: CoreCall,
    args: &[Value],
    st: &State,
) -> Result<CoreOut, NoMemory>
    ensures { IfOk result (λ out. (q : Queries) (give : Gives) → without_result member q args.now st.now give ≡ gives_by out st.now [] give) }
{
    match member {
        CoreCall::Create => gives_first(alloc, args, st),
        CoreCall::CreateOf => gives_unboxed(alloc, args, st),
        CoreCall::Invoke => Ok(gives_value(st, Value::Null)),
        CoreCall::PropertyGet => Ok(gives_value(st, Value::Null)),
        CoreCall::PropertySet => Ok(CoreOut::Gave(None)),
        _ => Ok(stuck_member(st)),
    }
}

/// A member goes on with what the method that it called returned. These are its own arguments.
pub fn resume<Q: Answers>(
    alloc: Global,
    q: &Q,
    member: CoreCall,
    args: Seq<Value>,
    returned: Option<Value>,
    st: &mut State,
    printed: &mut Vec<u8>,
) -> Result<CoreOut, NoMemory>
    requires { printed.old.items ≡ [] }
    ensures gives { IfOk result (λ out. (give : Gives) → with_option member (Q.queries q.now) args st.old give returned ≡ gives_by out st.new printed.new.items give) }
    ensures frames { IfOk result (λ out. KeepsFrames out st.old st.new) }
{
    match returned {
        None => without_result(alloc, member, args.as_slice(), st),
        Some(v) => with_result(alloc, q, member, args.as_slice(), v, st, printed),
    }
}
