//! Calls by reflection: MethodBase.Invoke, and GetValue and SetValue of PropertyInfo.

ghost use Rattle.std.specs.Prelude.{◌≡◌, ◌∷◌, [], false, IfOk};
ghost use Rattle.il_base.specs.declared.cil_values.value.Value.TheVariants.{Object};
ghost use Rattle.il_base.specs.declared.core_table.names.CoreName.TheVariants.{ArgumentException};
ghost use Rattle.il_base.specs.declared.world_model.expr.MethodUse.{MethodUse as UsedMethod};
ghost use Rattle.rules.specs.step_rules.Next.{Next};
ghost use Rattle.rules.specs.step_rules.Closing.{Callee as Called};
ghost use Rattle.rules.specs.step_rules.Words.{given, object_at};
ghost use Rattle.rules.specs.step_rules.Stores.{all_fit};
ghost use Rattle.rules.specs.step_rules.Objects.{type_of};
ghost use Rattle.rules.specs.step_rules.Frames.{started};
ghost use Rattle.rules.specs.step_rules.Dispatch.{found_from};
ghost use Rattle.rules.specs.step_rules.CoreWords.{Gives, before_call, or_raise};
ghost use Rattle.rules.specs.step_rules.CoreMembers.{member_by};
ghost use Rattle.rules.specs.step_rules.CoreInvoking.{called_for, elements_by, invocable, with_args, with_target};
ghost use Rattle.rules.specs.step_rules.Core.{calls_for, calls_found, calls_method, calls_on, calls_static, invoke_form, property_get_form, property_set_form, runs_called};
ghost use Rattle.machine_words.specs.cil_closing.Callees.{callee_by};
ghost use Rattle.machine_frames.specs.cil_dispatch.Found.{goes_to};
ghost use Rattle.cil_core.specs.cil_members.Outs.{gives_by};
ghost use Rattle.cil_reflect.specs.Aims.{named_next};

use crate::arguments::{Passed, elements_by, with_args};
use crate::methods::{Allowed, invocable};
use crate::running::runs_called;
use crate::targets::{Aim, with_target};
use cil_core::cil_members::{CoreOut, raised, stopped_member, stuck_member};
use cil_core::{called_for, found_args, started_with};
use il_base::cil_values::{CoreCall, State, Value};
use il_base::core_table::CoreName;
use il_base::world_model::MethodUse;
use il_base::{NoMemory, Seq};
use machine_frames::cil_dispatch::{Target, found_from};
use machine_words::cil_closing::Callee;
use machine_words::cil_objects::{member_by, type_of};
use machine_words::cil_queries::Answers;
use machine_words::cil_stores::all_fit;
use std::alloc::Global;

// ---- methods of instances

/// The method that was found for an object runs.
fn calls_found<Q: Answers>(
    alloc: Global,
    q: &Q,
    member: CoreCall,
    keep: Seq<Value>,
    back: &[Value],
    values: Seq<Value>,
    at: u32,
    c: &Callee,
    st: &mut State,
    printed: &mut Vec<u8>,
) -> Result<CoreOut, NoMemory>
    requires { printed.old.items ≡ [] }
    ensures { IfOk result (λ out. (give : Gives) → calls_found (Q.queries q.now) member keep back.now values st.old give at (callee_by c.now) ≡ gives_by out st.new printed.new.items give) }
{
    let Some(args) = found_args(alloc, q, st, c, at, values)? else {
        return Ok(stuck_member(st));
    };
    runs_called(alloc, q, member, keep, back, c, args, st, printed)
}

fn calls_target<Q: Answers>(
    alloc: Global,
    q: &Q,
    member: CoreCall,
    keep: Seq<Value>,
    back: &[Value],
    values: Seq<Value>,
    at: u32,
    c: &Callee,
    target: &Target,
    st: &mut State,
    printed: &mut Vec<u8>,
) -> Result<CoreOut, NoMemory>
    requires { printed.old.items ≡ [] }
    ensures { IfOk result (λ out. (give : Gives) → goes_to target.now (callee_by c.now) st.old (calls_found (Q.queries q.now) member keep back.now values st.old give at) ≡ gives_by out st.new printed.new.items give) }
{
    match target {
        Target::Itself => calls_found(alloc, q, member, keep, back, values, at, c, st, printed),
        Target::Other(d) => calls_found(alloc, q, member, keep, back, values, at, d, st, printed),
        Target::Stuck => Ok(stuck_member(st)),
        Target::Stopped => Ok(stopped_member(st)),
    }
}

/// What a call of a method finds for an object.
fn found_for<'a, Q: Answers>(
    alloc: Global,
    q: &'a Q,
    st: &State,
    c: &Callee,
    at: u32,
) -> Result<Target<'a>, NoMemory>
    ensures { IfOk result (λ target. (f : Called → Next) → given (object_at st.now at) st.now (λ o. found_from (Q.queries q.now) (callee_by c.now) (type_of (Q.queries q.now) o) st.now f) ≡ goes_to target (callee_by c.now) st.now f) }
{
    let Some(o) = st.heap.get(at) else {
        return Ok(Target::Stuck);
    };
    let ty = type_of(alloc, q, o)?;
    let target = found_from(alloc, q, c, &ty);
    drop(ty);
    target
}

/// A method is called on an object, with its arguments as the parameters take them.
fn calls_with<Q: Answers>(
    alloc: Global,
    q: &Q,
    member: CoreCall,
    keep: Seq<Value>,
    back: &[Value],
    c: &Callee,
    values: Seq<Value>,
    at: u32,
    st: &mut State,
    printed: &mut Vec<u8>,
) -> Result<CoreOut, NoMemory>
    requires { printed.old.items ≡ [] }
    ensures { IfOk result (λ out. (give : Gives) → given (object_at st.old at) st.old (λ o. found_from (Q.queries q.now) (callee_by c.now) (type_of (Q.queries q.now) o) st.old (calls_found (Q.queries q.now) member keep back.now values st.old give at)) ≡ gives_by out st.new printed.new.items give) }
{
    let target = found_for(alloc, q, st, c, at)?;
    let out = calls_target(
        alloc, q, member, keep, back, values, at, c, &target, st, printed,
    );
    drop(target);
    out
}

/// A method is called on an object.
fn calls_on<Q: Answers>(
    alloc: Global,
    q: &Q,
    member: CoreCall,
    keep: Seq<Value>,
    back: &[Value],
    c: &Callee,
    args: &[Value],
    at: u32,
    st: &mut State,
    printed: &mut Vec<u8>,
) -> Result<CoreOut, NoMemory>
    requires { printed.old.items ≡ [] }
    ensures { IfOk result (λ out. (give : Gives) → calls_on (Q.queries q.now) member keep back.now (callee_by c.now) args.now st.old give at ≡ gives_by out st.new printed.new.items give) }
{
    match with_args(alloc, q, st, c.signature.get(), args)? {
        Passed::Are(values) => {
            calls_with(alloc, q, member, keep, back, c, values, at, st, printed)
        }
        Passed::Count => raised(alloc, q, CoreName::TargetParameterCountException, st),
        Passed::Unfit => raised(alloc, q, CoreName::ArgumentException, st),
        Passed::Stopped => Ok(stopped_member(st)),
    }
}

/// A method of instances is called on a target.
fn calls_instance<Q: Answers>(
    alloc: Global,
    q: &Q,
    member: CoreCall,
    keep: Seq<Value>,
    back: &[Value],
    c: &Callee,
    target: &Value,
    args: &[Value],
    st: &mut State,
    printed: &mut Vec<u8>,
) -> Result<CoreOut, NoMemory>
    requires { printed.old.items ≡ [] }
    ensures { IfOk result (λ out. (give : Gives) → with_target (Q.queries q.now) (callee_by c.now).called.owner target.now st.old (calls_on (Q.queries q.now) member keep back.now (callee_by c.now) args.now st.old give) ≡ gives_by out st.new printed.new.items give) }
{
    match with_target(alloc, q, st, &c.called.owner, target)? {
        Aim::At(at) => calls_on(alloc, q, member, keep, back, c, args, at, st, printed),
        Aim::Wrong => raised(alloc, q, CoreName::TargetException, st),
        Aim::Stuck => Ok(stuck_member(st)),
    }
}

// ---- static methods

/// A static method whose type has begun is called, with its arguments as the parameters take them.
fn enters_static<Q: Answers>(
    alloc: Global,
    q: &Q,
    member: CoreCall,
    keep: Seq<Value>,
    back: &[Value],
    c: &Callee,
    values: Seq<Value>,
    st: &mut State,
    printed: &mut Vec<u8>,
) -> Result<CoreOut, NoMemory>
    requires { printed.old.items ≡ [] }
    ensures { IfOk result (λ out. (give : Gives) → given (all_fit (Q.queries q.now) (callee_by c.now).signature.params values) st.old (λ ws. runs_called (Q.queries q.now) member keep back.now (callee_by c.now) ws st.old give ((Q.queries q.now).core c.now.called.method.0)) ≡ gives_by out st.new printed.new.items give) }
{
    let Some(args) = all_fit(alloc, q, c.signature.get().params.as_slice(), values)? else {
        return Ok(stuck_member(st));
    };
    runs_called(alloc, q, member, keep, back, c, args, st, printed)
}

/// A static method is called, with its arguments as the parameters take them, after the initializer of its type.
fn starts_static<Q: Answers>(
    alloc: Global,
    q: &Q,
    member: CoreCall,
    keep: Seq<Value>,
    back: &[Value],
    c: &Callee,
    values: Seq<Value>,
    st: &mut State,
    printed: &mut Vec<u8>,
) -> Result<CoreOut, NoMemory>
    requires { printed.old.items ≡ [] }
    ensures { IfOk result (λ out. (give : Gives) → started (Q.queries q.now) false (callee_by c.now).called.owner (before_call back.now st.old) (λ t. given (all_fit (Q.queries q.now) (callee_by c.now).signature.params values) st.old (λ ws. runs_called (Q.queries q.now) member keep back.now (callee_by c.now) ws st.old give ((Q.queries q.now).core c.now.called.method.0))) ≡ gives_by out st.new printed.new.items give) }
{
    match started_with(alloc, q, false, &c.called.owner, back, st)? {
        Some(out) => Ok(CoreOut::Stepped(out)),
        None => enters_static(alloc, q, member, keep, back, c, values, st, printed),
    }
}

/// A static method is called.
fn calls_static<Q: Answers>(
    alloc: Global,
    q: &Q,
    member: CoreCall,
    keep: Seq<Value>,
    back: &[Value],
    c: &Callee,
    args: &[Value],
    st: &mut State,
    printed: &mut Vec<u8>,
) -> Result<CoreOut, NoMemory>
    requires { printed.old.items ≡ [] }
    ensures { IfOk result (λ out. (give : Gives) → calls_static (Q.queries q.now) member keep back.now (callee_by c.now) args.now st.old give ≡ gives_by out st.new printed.new.items give) }
{
    match with_args(alloc, q, st, c.signature.get(), args)? {
        Passed::Are(values) => starts_static(alloc, q, member, keep, back, c, values, st, printed),
        Passed::Count => raised(alloc, q, CoreName::TargetParameterCountException, st),
        Passed::Unfit => raised(alloc, q, CoreName::ArgumentException, st),
        Passed::Stopped => Ok(stopped_member(st)),
    }
}

// ---- methods

/// A method that reflection calls.
fn calls_method<Q: Answers>(
    alloc: Global,
    q: &Q,
    member: CoreCall,
    keep: Seq<Value>,
    back: &[Value],
    target: &Value,
    args: &[Value],
    c: &Callee,
    st: &mut State,
    printed: &mut Vec<u8>,
) -> Result<CoreOut, NoMemory>
    requires { printed.old.items ≡ [] }
    ensures { IfOk result (λ out. (give : Gives) → calls_method (Q.queries q.now) member keep back.now target.now args.now st.old give (callee_by c.now) ≡ gives_by out st.new printed.new.items give) }
{
    if c.signature.get().this {
        calls_instance(alloc, q, member, keep, back, c, target, args, st, printed)
    } else {
        calls_static(alloc, q, member, keep, back, c, args, st, printed)
    }
}

/// A method that was named, which reflection calls if it may.
fn calls_named<Q: Answers>(
    alloc: Global,
    q: &Q,
    member: CoreCall,
    keep: Seq<Value>,
    back: &[Value],
    target: &Value,
    args: &[Value],
    used: MethodUse,
    st: &mut State,
    printed: &mut Vec<u8>,
) -> Result<CoreOut, NoMemory>
    requires { printed.old.items ≡ [] }
    ensures { IfOk result (λ out. (give : Gives) → invocable (Q.queries q.now) used st.old (calls_method (Q.queries q.now) member keep back.now target.now args.now st.old give) ≡ gives_by out st.new printed.new.items give) }
{
    match invocable(alloc, q, used)? {
        Allowed::Is(c) => {
            let out = calls_method(alloc, q, member, keep, back, target, args, &c, st, printed);
            drop(c);
            out
        }
        Allowed::Open => raised(alloc, q, CoreName::InvalidOperationException, st),
        Allowed::Stopped => Ok(stopped_member(st)),
        Allowed::Stuck => Ok(stuck_member(st)),
    }
}

/// The method of a member object.
#[derive(Drop)]
enum Named {
    Is(MethodUse),
    /// A property without such an accessor.
    Missing,
    Stuck,
}

/// What a member calls for the object that a value names.
fn named_by<Q: Answers>(
    alloc: Global,
    q: &Q,
    member: CoreCall,
    st: &State,
    v: &Value,
) -> Result<Named, NoMemory>
    ensures { IfOk result (λ named. (f : UsedMethod → Next) → given (member_by st.now v.now) st.now (λ m. or_raise (Q.queries q.now) ArgumentException st.now (called_for (Q.queries q.now) member m) f) ≡ named_next named (Q.queries q.now) st.now f) }
{
    let Some(m) = member_by(st, v) else {
        return Ok(Named::Stuck);
    };
    match called_for(alloc, q, member, &m)? {
        None => Ok(Named::Missing),
        Some(used) => Ok(Named::Is(used)),
    }
}

/// A member calls the method that was named.
fn calls_by<Q: Answers>(
    alloc: Global,
    q: &Q,
    member: CoreCall,
    keep: Seq<Value>,
    back: &[Value],
    target: &Value,
    args: &[Value],
    x: Named,
    st: &mut State,
    printed: &mut Vec<u8>,
) -> Result<CoreOut, NoMemory>
    requires { printed.old.items ≡ [] }
    ensures { IfOk result (λ out. (give : Gives) → named_next x (Q.queries q.now) st.old (λ u. invocable (Q.queries q.now) u st.old (calls_method (Q.queries q.now) member keep back.now target.now args.now st.old give)) ≡ gives_by out st.new printed.new.items give) }
{
    match x {
        Named::Is(used) => {
            calls_named(
                alloc, q, member, keep, back, target, args, used, st, printed,
            )
        }
        Named::Missing => raised(alloc, q, CoreName::ArgumentException, st),
        Named::Stuck => Ok(stuck_member(st)),
    }
}

/// A value alone.
fn one(alloc: Global, v: &Value) -> Result<Seq<Value>, NoMemory>
    ensures { IfOk result (λ values. values ≡ v.now ∷ []) }
{
    let mut values = Seq::new(alloc);
    let copy = v.copy(alloc)?;
    values.push(copy)?;
    Ok(values)
}

/// A member calls what it calls for a member object. `back` has the arguments with which the call comes again.
fn calls_for<Q: Answers>(
    alloc: Global,
    q: &Q,
    member: CoreCall,
    back: &[Value],
    v: &Value,
    target: &Value,
    args: &[Value],
    st: &mut State,
    printed: &mut Vec<u8>,
) -> Result<CoreOut, NoMemory>
    requires { printed.old.items ≡ [] }
    ensures { IfOk result (λ out. (give : Gives) → calls_for (Q.queries q.now) member back.now v.now target.now args.now st.old give ≡ gives_by out st.new printed.new.items give) }
{
    let keep = one(alloc, v)?;
    let x = named_by(alloc, q, member, st, v)?;
    let out = calls_by(alloc, q, member, keep, back, target, args, x, st, printed)?;
    Ok(out)
}

// ---- the members

/// MethodBase.Invoke(object, object[]).
#[tactic(auto, unfolding(rules::specs::step_rules::Core::invoke_form))]
pub(crate) fn invoke<Q: Answers>(
    alloc: Global,
    q: &Q,
    args: &[Value],
    st: &mut State,
    printed: &mut Vec<u8>,
) -> Result<CoreOut, NoMemory>
    requires { printed.old.items ≡ [] }
    ensures { IfOk result (λ out. (give : Gives) → invoke_form (Q.queries q.now) args.now st.old give ≡ gives_by out st.new printed.new.items give) }
{
    let [v, target, array] = args else {
        return Ok(stuck_member(st));
    };
    let Some(values) = elements_by(alloc, st, array)? else {
        return Ok(stuck_member(st));
    };
    let out = calls_for(
        alloc,
        q,
        CoreCall::Invoke,
        args,
        v,
        target,
        values.as_slice(),
        st,
        printed,
    );
    drop(values);
    out
}

/// PropertyInfo.GetValue(object).
#[tactic(auto, unfolding(rules::specs::step_rules::Core::property_get_form))]
pub(crate) fn property_get<Q: Answers>(
    alloc: Global,
    q: &Q,
    args: &[Value],
    st: &mut State,
    printed: &mut Vec<u8>,
) -> Result<CoreOut, NoMemory>
    requires { printed.old.items ≡ [] }
    ensures { IfOk result (λ out. (give : Gives) → property_get_form (Q.queries q.now) args.now st.old give ≡ gives_by out st.new printed.new.items give) }
{
    let [v, target] = args else {
        return Ok(stuck_member(st));
    };
    calls_for(
        alloc,
        q,
        CoreCall::PropertyGet,
        args,
        v,
        target,
        &[],
        st,
        printed,
    )
}

/// PropertyInfo.SetValue(object, object).
#[tactic(auto, unfolding(rules::specs::step_rules::Core::property_set_form))]
pub(crate) fn property_set<Q: Answers>(
    alloc: Global,
    q: &Q,
    args: &[Value],
    st: &mut State,
    printed: &mut Vec<u8>,
) -> Result<CoreOut, NoMemory>
    requires { printed.old.items ≡ [] }
    ensures { IfOk result (λ out. (give : Gives) → property_set_form (Q.queries q.now) args.now st.old give ≡ gives_by out st.new printed.new.items give) }
{
    let [v, target, w] = args else {
        return Ok(stuck_member(st));
    };
    let values = one(alloc, w)?;
    let out = calls_for(
        alloc,
        q,
        CoreCall::PropertySet,
        args,
        v,
        target,
        values.as_slice(),
        st,
        printed,
    );
    drop(values);
    out
}
