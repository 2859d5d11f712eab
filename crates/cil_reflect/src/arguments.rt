//! Arguments of a call by reflection: null is the zero value of the parameter's type, a value type takes the value out of a box of
//! exactly this type.

ghost use Rattle.std.specs.Prelude.{◌≡◌, List, IfOk};
ghost use Rattle.std.specs.Option.{option_and_then};
ghost use Rattle.il_base.specs.declared.cil_values.value.Value.{Value};
ghost use Rattle.il_base.specs.declared.cil_values.state.State.{State};
ghost use Rattle.rules.specs.step_rules.Queries.{Queries};
ghost use Rattle.rules.specs.step_rules.Next.{Next};
ghost use Rattle.rules.specs.step_rules.Words.{object_at};
ghost use Rattle.rules.specs.step_rules.Types.{boxed_of};
ghost use Rattle.rules.specs.step_rules.CoreInvoking.{arg_as, args_as, by_taken, cells_in, elements_by, object_as, with_args};
ghost use Rattle.cil_reflect.specs.Aims.{all_taken_by, behind, passed_next, taken_by};

use il_base::cil_values::{Obj, Signature, State, Value};
use il_base::world_model::TypeExpr;
use il_base::{NoMemory, Seq};
use machine_objects::cil_types::boxed_of;
use machine_words::cil_objects::is_a;
use machine_words::cil_queries::Answers;
use machine_words::cil_stores::{is_value, zero_of};
use std::alloc::Global;

/// The arguments of a call by reflection.
#[derive(Drop)]
pub enum Passed {
    /// Each as its parameter takes it.
    Are(Seq<Value>),
    /// Another number than there are parameters: TargetParameterCountException is raised.
    Count,
    /// One doesn't fit: ArgumentException is raised.
    Unfit,
    /// One is null, for a type without a zero value.
    Stopped,
}

/// The elements of an array.
fn cells_in(alloc: Global, o: &Obj) -> Result<Option<Seq<Value>>, NoMemory>
    ensures { IfOk result (λ values. values ≡ cells_in o.now) }
{
    match o {
        Obj::Array { of: _, cells } => {
            let copy = Value::copy_all(alloc, cells.as_slice())?;
            Ok(Some(copy))
        }
        Obj::Instance { of: _, cells: _ } => Ok(None),
        Obj::Boxed { of: _, value: _ } => Ok(None),
        Obj::Str(_) => Ok(None),
        Obj::TypeOf(_) => Ok(None),
        Obj::Member(_, _) => Ok(None),
    }
}

/// The elements of an array that a value names. Null counts as an empty one. None for another value.
pub(crate) fn elements_by(
    alloc: Global,
    st: &State,
    v: &Value,
) -> Result<Option<Seq<Value>>, NoMemory>
    ensures { IfOk result (λ values. values ≡ elements_by st.now v.now) }
{
    match v {
        Value::Null => Ok(Some(Seq::new(alloc))),
        Value::Object(at) => match st.heap.get(*at) {
            None => Ok(None),
            Some(o) => cells_in(alloc, o),
        },
        Value::I4(_) => Ok(None),
        Value::I8(_) => Ok(None),
        Value::Native(_) => Ok(None),
        Value::Pointer(_) => Ok(None),
        Value::Struct(_, _) => Ok(None),
        Value::Handle(_) => Ok(None),
        Value::FieldHandle(_) => Ok(None),
    }
}

/// The value in a box of exactly a type. None for another object.
fn unboxed(alloc: Global, st: &State, ty: &TypeExpr, at: u32) -> Result<Option<Value>, NoMemory>
    ensures { IfOk result (λ v. v ≡ option_and_then (boxed_of ty.now) (object_at st.now at)) }
{
    let Some(o) = st.heap.get(at) else {
        return Ok(None);
    };
    match boxed_of(ty, o) {
        None => Ok(None),
        Some(v) => {
            let copy = v.copy(alloc)?;
            Ok(Some(copy))
        }
    }
}

/// An object as a type takes it. None where it doesn't fit.
fn object_as<Q: Answers>(
    alloc: Global,
    q: &Q,
    st: &State,
    ty: &TypeExpr,
    at: u32,
) -> Result<Option<Value>, NoMemory>
    ensures { IfOk result (λ v. v ≡ object_as (Q.queries q.now) st.now ty.now at) }
{
    if is_value(alloc, q, ty)? {
        return unboxed(alloc, st, ty, at);
    }
    if is_a(alloc, q, st, ty, at)? {
        Ok(Some(Value::Object(at)))
    } else {
        Ok(None)
    }
}

/// What an argument is for a parameter.
#[derive(Drop)]
pub enum Kept {
    Is(Value),
    /// It doesn't fit: ArgumentException is raised.
    Unfit,
    /// It is null, for a type without a zero value.
    Stopped,
}

/// An argument as a type takes it: null is the zero value.
pub(crate) fn arg_as<Q: Answers>(
    alloc: Global,
    q: &Q,
    st: &State,
    ty: &TypeExpr,
    v: &Value,
) -> Result<Kept, NoMemory>
    ensures { IfOk result (λ kept. arg_as (Q.queries q.now) st.now ty.now v.now ≡ taken_by kept) }
{
    match v {
        Value::Null => match zero_of(alloc, q, ty)? {
            None => Ok(Kept::Stopped),
            Some(zero) => Ok(Kept::Is(zero)),
        },
        Value::Object(at) => match object_as(alloc, q, st, ty, *at)? {
            None => Ok(Kept::Unfit),
            Some(w) => Ok(Kept::Is(w)),
        },
        Value::I4(_) => Ok(Kept::Unfit),
        Value::I8(_) => Ok(Kept::Unfit),
        Value::Native(_) => Ok(Kept::Unfit),
        Value::Pointer(_) => Ok(Kept::Unfit),
        Value::Struct(_, _) => Ok(Kept::Unfit),
        Value::Handle(_) => Ok(Kept::Unfit),
        Value::FieldHandle(_) => Ok(Kept::Unfit),
    }
}

/// What arguments are for parameters.
#[derive(Drop)]
pub enum AllKept {
    Are(Seq<Value>),
    Unfit,
    Stopped,
}

/// Each argument as its parameter takes it, after what there is already. The first that can't be taken counts.
#[tactic(auto, unfolding(rules::specs::step_rules::CoreInvoking::args_as))]
fn args_as<Q: Answers>(
    alloc: Global,
    q: &Q,
    st: &State,
    types: &[TypeExpr],
    values: &[Value],
    first: Seq<Value>,
) -> Result<AllKept, NoMemory>
    ensures { IfOk result (λ kept. all_taken_by kept ≡ behind first (args_as (Q.queries q.now) st.now types.now values.now)) }
{
    let mut kept = first;
    let mut left = values;
    for ty in types {
        let [v, more @ ..] = left else {
            return Ok(AllKept::Unfit);
        };
        match arg_as(alloc, q, st, ty, v) {
            Err(error) => return Err(error),
            Ok(Kept::Unfit) => return Ok(AllKept::Unfit),
            Ok(Kept::Stopped) => return Ok(AllKept::Stopped),
            Ok(Kept::Is(value)) => kept.push(value)?,
        }
        left = more;
    }
    Ok(AllKept::Are(kept))
}

fn passed_by(kept: AllKept) -> Passed
    ensures { (q : Queries) (s : State) (f : List Value → Next) → by_taken q s (all_taken_by kept) f ≡ passed_next result q s f }
{
    match kept {
        AllKept::Are(values) => Passed::Are(values),
        AllKept::Unfit => Passed::Unfit,
        AllKept::Stopped => Passed::Stopped,
    }
}

/// Arguments of which there is one for each parameter.
fn args_by<Q: Answers>(
    alloc: Global,
    q: &Q,
    st: &State,
    types: &[TypeExpr],
    values: &[Value],
) -> Result<Passed, NoMemory>
    ensures { IfOk result (λ out. (f : List Value → Next) → by_taken (Q.queries q.now) st.now (args_as (Q.queries q.now) st.now types.now values.now) f ≡ passed_next out (Q.queries q.now) st.now f) }
{
    let kept = args_as(alloc, q, st, types, values, Seq::new(alloc))?;
    Ok(passed_by(kept))
}

/// The arguments of a call of a method with this signature.
#[tactic(auto, unfolding(rules::specs::step_rules::CoreInvoking::with_args))]
pub(crate) fn with_args<Q: Answers>(
    alloc: Global,
    q: &Q,
    st: &State,
    sig: &Signature,
    values: &[Value],
) -> Result<Passed, NoMemory>
    ensures { IfOk result (λ out. (f : List Value → Next) → with_args (Q.queries q.now) sig.now values.now st.now f ≡ passed_next out (Q.queries q.now) st.now f) }
{
    let types = sig.params.as_slice();
    if values.len() != types.len() {
        return Ok(Passed::Count);
    }
    args_by(alloc, q, st, types, values)
}
