//! Members that call a slot of Object.

ghost use Rattle.std.specs.Prelude.{◌≡◌, ◌∷◌, [], false, IfOk};
ghost use Rattle.il_base.specs.declared.cil_values.value.Value.TheVariants.{Object};
ghost use Rattle.rules.specs.step_rules.CoreWords.{Gives};
ghost use Rattle.rules.specs.step_rules.Core.{calls_slot, equal_by, equal_form, object_slot, print_object};
ghost use Rattle.rules.specs.step_rules.Next.{Next};
ghost use Rattle.rules.specs.step_rules.Words.{given, object_at};
ghost use Rattle.rules.specs.step_rules.Closing.{Callee as Called};
ghost use Rattle.rules.specs.step_rules.Dispatch.{dispatched};
ghost use Rattle.rules.specs.step_rules.Objects.{type_of};
ghost use Rattle.machine_words.specs.cil_closing.Callees.{callee_by};
ghost use Rattle.machine_frames.specs.cil_dispatch.Found.{goes_to};
ghost use Rattle.cil_core.specs.Runs.{runs_on};
ghost use Rattle.cil_core.specs.cil_members.Outs.{gives_by};

use crate::cil_console_members::print;
use crate::cil_members::{CoreOut, gives_truth, stopped_member, stuck_member};
use crate::cil_object_members::is_same;
use crate::found::run_on;
use il_base::cil_values::{CoreCall, Printed, State, Value};
use il_base::world_model::{MethodUse, TypeExpr};
use il_base::{MethodId, NoMemory, Seq, element};
use machine_frames::cil_dispatch::{Target, dispatched};
use machine_words::cil_closing::{Callee, callee_of};
use machine_words::cil_objects::type_of;
use machine_words::cil_queries::Answers;
use std::alloc::Global;

/// A method of Object, by its place in the world.
fn object_slot(alloc: Global, slot: u32) -> MethodUse
    ensures { result ≡ object_slot slot }
{
    MethodUse {
        method: MethodId(slot),
        owner: TypeExpr::Prim(element::OBJECT),
        args: Seq::new(alloc),
    }
}

/// The method that a virtual call finds for the object with a number.
fn found_by<'a, Q: Answers>(
    alloc: Global,
    q: &'a Q,
    st: &State,
    c: &Callee,
    at: u32,
) -> Result<Target<'a>, NoMemory>
    ensures { IfOk result (λ target. (f : Called → Next) → given (object_at st.now at) st.now (λ o. dispatched (Q.queries q.now) (callee_by c.now) (type_of (Q.queries q.now) o) st.now f) ≡ goes_to target (callee_by c.now) st.now f) }
{
    let Some(o) = st.heap.get(at) else {
        return Ok(Target::Stuck);
    };
    let ty = type_of(alloc, q, o)?;
    let target = dispatched(alloc, q, c, &ty);
    drop(ty);
    target
}

/// Runs what was found for an object, with these arguments after it.
fn run_target<Q: Answers>(
    alloc: Global,
    q: &Q,
    member: CoreCall,
    args: Seq<Value>,
    c: &Callee,
    target: &Target,
    at: u32,
    rest: Seq<Value>,
    st: &mut State,
    printed: &mut Vec<u8>,
) -> Result<CoreOut, NoMemory>
    requires { printed.old.items ≡ [] }
    ensures { IfOk result (λ out. (give : Gives) → goes_to target.now (callee_by c.now) st.old (runs_on (Q.queries q.now) member args at rest st.old give) ≡ gives_by out st.new printed.new.items give) }
{
    match target {
        Target::Itself => run_on(alloc, q, member, args, c, at, rest, st, printed),
        Target::Other(found) => run_on(alloc, q, member, args, found, at, rest, st, printed),
        Target::Stuck => Ok(stuck_member(st)),
        Target::Stopped => Ok(stopped_member(st)),
    }
}

/// A virtual call of a method for an object, with these arguments after it.
fn calls_method<Q: Answers>(
    alloc: Global,
    q: &Q,
    member: CoreCall,
    args: Seq<Value>,
    c: &Callee,
    at: u32,
    rest: Seq<Value>,
    st: &mut State,
    printed: &mut Vec<u8>,
) -> Result<CoreOut, NoMemory>
    requires { printed.old.items ≡ [] }
    ensures { IfOk result (λ out. (give : Gives) → given (object_at st.old at) st.old (λ o. dispatched (Q.queries q.now) (callee_by c.now) (type_of (Q.queries q.now) o) st.old (runs_on (Q.queries q.now) member args at rest st.old give)) ≡ gives_by out st.new printed.new.items give) }
{
    let target = found_by(alloc, q, st, c, at)?;
    let out = run_target(alloc, q, member, args, c, &target, at, rest, st, printed);
    drop(target);
    out
}

/// A virtual call of a slot of Object for an object, with these arguments after it.
#[tactic(auto, unfolding(rules::specs::step_rules::Core::calls_slot))]
fn calls_slot<Q: Answers>(
    alloc: Global,
    q: &Q,
    slot: u32,
    member: CoreCall,
    args: Seq<Value>,
    at: u32,
    rest: Seq<Value>,
    st: &mut State,
    printed: &mut Vec<u8>,
) -> Result<CoreOut, NoMemory>
    requires { printed.old.items ≡ [] }
    ensures { IfOk result (λ out. (give : Gives) → calls_slot slot (Q.queries q.now) member args at rest st.old give ≡ gives_by out st.new printed.new.items give) }
{
    let Some(c) = callee_of(alloc, q, object_slot(alloc, slot))? else {
        return Ok(stopped_member(st));
    };
    let out = calls_method(alloc, q, member, args, &c, at, rest, st, printed);
    drop(c);
    out
}

/// The arguments of a member that takes one object.
fn one_object(alloc: Global, at: u32) -> Result<Seq<Value>, NoMemory>
    ensures { IfOk result (λ args. args ≡ Object at ∷ []) }
{
    let mut args = Seq::new(alloc);
    args.push(Value::Object(at))?;
    Ok(args)
}

/// The arguments of a member that takes two objects.
fn two_objects(alloc: Global, first: u32, second: u32) -> Result<Seq<Value>, NoMemory>
    ensures { IfOk result (λ args. args ≡ Object first ∷ Object second ∷ []) }
{
    let mut args = Seq::new(alloc);
    args.push(Value::Object(first))?;
    args.push(Value::Object(second))?;
    Ok(args)
}

/// Console.Write and Console.WriteLine of an object: null prints nothing, another by its ToString().
#[tactic(auto, unfolding(rules::specs::step_rules::Core::print_object))]
pub(crate) fn print_object<Q: Answers>(
    alloc: Global,
    q: &Q,
    line: bool,
    args: &[Value],
    st: &mut State,
    printed: &mut Vec<u8>,
) -> Result<CoreOut, NoMemory>
    requires { printed.old.items ≡ [] }
    ensures { IfOk result (λ out. (give : Gives) → print_object line (Q.queries q.now) args.now st.old give ≡ gives_by out st.new printed.new.items give) }
{
    let [v] = args else {
        return Ok(stuck_member(st));
    };
    match v {
        Value::Null => print(alloc, line, Printed::OfObject, args, st, printed),
        Value::Object(at) => {
            let member = CoreCall::Prints(line, Printed::OfObject);
            let own = one_object(alloc, *at)?;
            let rest = Seq::new(alloc);
            let slot = q.object_slots().to_string;
            calls_slot(alloc, q, slot, member, own, *at, rest, st, printed)
        }
        Value::I4(_) => Ok(stuck_member(st)),
        Value::I8(_) => Ok(stuck_member(st)),
        Value::Native(_) => Ok(stuck_member(st)),
        Value::Pointer(_) => Ok(stuck_member(st)),
        Value::Struct(_, _) => Ok(stuck_member(st)),
        Value::Handle(_) => Ok(stuck_member(st)),
        Value::FieldHandle(_) => Ok(stuck_member(st)),
    }
}

/// Equals(object) of the first of two objects.
fn calls_equals<Q: Answers>(
    alloc: Global,
    q: &Q,
    first: u32,
    second: u32,
    st: &mut State,
    printed: &mut Vec<u8>,
) -> Result<CoreOut, NoMemory>
    requires { printed.old.items ≡ [] }
    ensures { IfOk result (λ out. (give : Gives) → equal_by (Q.queries q.now) st.old give (Object first) (Object second) false ≡ gives_by out st.new printed.new.items give) }
{
    let own = two_objects(alloc, first, second)?;
    let rest = one_object(alloc, second)?;
    let slot = q.object_slots().equals;
    calls_slot(
        alloc,
        q,
        slot,
        CoreCall::AreEqual,
        own,
        first,
        rest,
        st,
        printed,
    )
}

/// Two values that are not the same: objects are compared by Equals(object) of the first.
fn unequal<Q: Answers>(
    alloc: Global,
    q: &Q,
    v: &Value,
    w: &Value,
    st: &mut State,
    printed: &mut Vec<u8>,
) -> Result<CoreOut, NoMemory>
    requires { printed.old.items ≡ [] }
    ensures { IfOk result (λ out. (give : Gives) → equal_by (Q.queries q.now) st.old give v.now w.now false ≡ gives_by out st.new printed.new.items give) }
{
    let Value::Object(first) = v else {
        return Ok(gives_truth(st, false));
    };
    match w {
        Value::Object(second) => calls_equals(alloc, q, *first, *second, st, printed),
        _ => Ok(gives_truth(st, false)),
    }
}

/// The static Object.Equals(object, object): the same or both null, one null, else by the first one's Equals(object).
#[tactic(auto, unfolding(rules::specs::step_rules::Core::equal_form))]
pub(crate) fn equal_form<Q: Answers>(
    alloc: Global,
    q: &Q,
    args: &[Value],
    st: &mut State,
    printed: &mut Vec<u8>,
) -> Result<CoreOut, NoMemory>
    requires { printed.old.items ≡ [] }
    ensures { IfOk result (λ out. (give : Gives) → equal_form (Q.queries q.now) args.now st.old give ≡ gives_by out st.new printed.new.items give) }
{
    let [v, w] = args else {
        return Ok(stuck_member(st));
    };
    match is_same(v, w) {
        None => Ok(stuck_member(st)),
        Some(true) => Ok(gives_truth(st, true)),
        Some(false) => unequal(alloc, q, v, w, st, printed),
    }
}
