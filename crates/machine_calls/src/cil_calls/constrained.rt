//! `callvirt` after `constrained.` (III.2.1).

ghost use Rattle.std.specs.Prelude.{◌≡◌, [], IfOk};
ghost use Rattle.rules.specs.step_rules.Calls.{boxed_on, constrained_at, constrained_found, constrained_on, is_own, same_definition};
ghost use Rattle.machine_words.specs.cil_closing.Callees.{callee_by};
ghost use Rattle.machine_frames.specs.cil_dispatch.Found.{goes_to};
ghost use Rattle.il_base.specs.declared.cil_values.value.Value.TheVariants.{Pointer};
ghost use Rattle.machine_words.specs.cil_words.Steps.{here_by, next_of};

use crate::cil_calls::receiving::call_virtual;
use crate::cil_invoking::{runs, runs_on, with_first};
use il_base::cil_values::{Instruction, Obj, Path, State, Value};
use il_base::core_table::CoreName;
use il_base::world_model::TypeExpr;
use il_base::{NoMemory, Seq};
use machine_frames::cil_dispatch::{Target, found_from};
use machine_frames::cil_frames::definition_of;
use machine_frames::cil_raising::raise;
use machine_words::cil_closing::Callee;
use machine_words::cil_places::{has_ended, place_value};
use machine_words::cil_queries::Answers;
use machine_words::cil_stores::is_value;
use machine_words::cil_words::{Body, StepOut, stopped, stuck};
use std::alloc::Global;

fn same_definition(a: Option<u32>, b: Option<u32>) -> bool
    ensures { result ≡ same_definition a b }
{
    match a {
        None => false,
        Some(a) => match b {
            None => false,
            Some(b) => a == b,
        },
    }
}

/// Whether a method's owner has the definition of a type.
fn is_own(owner: &TypeExpr, ty: &TypeExpr) -> bool
    ensures { result ≡ is_own owner.now ty.now }
{
    owner.is_same(ty) || same_definition(definition_of(owner), definition_of(ty))
}

/// The value of the place goes into a new box, on which the method runs.
#[tactic(auto, unfolding(rules::specs::step_rules::Places::at_place))]
fn boxed_on<Q: Answers>(
    alloc: Global,
    q: &Q,
    body: &Body,
    i: &Instruction,
    values: Seq<Value>,
    ty: &TypeExpr,
    p: &Path,
    found: &Callee,
    st: &mut State,
    printed: &mut Vec<u8>,
) -> Result<StepOut, NoMemory>
    requires { printed.old.items ≡ [] }
    ensures { IfOk result (λ out. next_of out st.new printed.new.items ≡ boxed_on (Q.queries q.now) (here_by body.now st.old) i.now values st.old ty.now p.now (callee_by found.now)) }
{
    let Some(value) = place_value(alloc, q, st, p)? else {
        return Ok(stopped(st));
    };
    let of = ty.copy(alloc)?;
    let a = st.heap.add(Obj::Boxed { of, value })?;
    runs_on(
        alloc,
        q,
        body,
        i,
        values,
        Value::Object(a),
        found,
        st,
        printed,
    )
}

/// On a value type: the pointer where the method stands in the type's definition, else a box.
fn constrained_found<Q: Answers>(
    alloc: Global,
    q: &Q,
    body: &Body,
    i: &Instruction,
    values: Seq<Value>,
    ty: &TypeExpr,
    p: &Path,
    found: &Callee,
    st: &mut State,
    printed: &mut Vec<u8>,
) -> Result<StepOut, NoMemory>
    requires { printed.old.items ≡ [] }
    ensures { IfOk result (λ out. next_of out st.new printed.new.items ≡ constrained_found (Q.queries q.now) (here_by body.now st.old) i.now values st.old ty.now p.now (callee_by found.now)) }
{
    if !is_own(&found.called.owner, ty) {
        return boxed_on(alloc, q, body, i, values, ty, p, found, st, printed);
    }
    let this = p.copy(alloc)?;
    let this = Value::pointer(alloc, this)?;
    let all = with_first(alloc, this, values)?;
    runs(alloc, q, body, i, found, all, st, printed)
}

/// On a value type, what dispatch gave.
fn constrained_by<Q: Answers>(
    alloc: Global,
    q: &Q,
    body: &Body,
    i: &Instruction,
    values: Seq<Value>,
    ty: &TypeExpr,
    p: &Path,
    c: &Callee,
    found: &Target,
    st: &mut State,
    printed: &mut Vec<u8>,
) -> Result<StepOut, NoMemory>
    requires { printed.old.items ≡ [] }
    ensures { IfOk result (λ out. next_of out st.new printed.new.items ≡ goes_to found.now (callee_by c.now) st.old (constrained_found (Q.queries q.now) (here_by body.now st.old) i.now values st.old ty.now p.now)) }
{
    match found {
        Target::Itself => { constrained_found(alloc, q, body, i, values, ty, p, c, st, printed) }
        Target::Other(d) => { constrained_found(alloc, q, body, i, values, ty, p, d, st, printed) }
        Target::Stuck => Ok(stuck(st)),
        Target::Stopped => Ok(stopped(st)),
    }
}

/// On a place of the constrained type; on a reference the object of the place.
#[tactic(auto, unfolding(rules::specs::step_rules::Places::at_place))]
fn constrained_at<Q: Answers>(
    alloc: Global,
    q: &Q,
    body: &Body,
    i: &Instruction,
    c: &Callee,
    values: Seq<Value>,
    ty: &TypeExpr,
    p: &Path,
    st: &mut State,
    printed: &mut Vec<u8>,
) -> Result<StepOut, NoMemory>
    requires { printed.old.items ≡ [] }
    ensures { IfOk result (λ out. next_of out st.new printed.new.items ≡ constrained_at (Q.queries q.now) (here_by body.now st.old) i.now (callee_by c.now) values st.old ty.now p.now) }
{
    if is_value(alloc, q, ty)? {
        let found = found_from(alloc, q, c, ty)?;
        return constrained_by(alloc, q, body, i, values, ty, p, c, &found, st, printed);
    }
    let Some(this) = place_value(alloc, q, st, p)? else {
        return Ok(stopped(st));
    };
    call_virtual(alloc, q, body, i, c, values, this, st, printed)
}

/// On a pointer, which leads to a place of the constrained type.
fn constrained_to<Q: Answers>(
    alloc: Global,
    q: &Q,
    body: &Body,
    i: &Instruction,
    c: &Callee,
    values: Seq<Value>,
    ty: &TypeExpr,
    p: &Path,
    st: &mut State,
    printed: &mut Vec<u8>,
) -> Result<StepOut, NoMemory>
    requires { printed.old.items ≡ [] }
    ensures { IfOk result (λ out. next_of out st.new printed.new.items ≡ constrained_on (Q.queries q.now) (here_by body.now st.old) i.now (callee_by c.now) values st.old ty.now (Pointer p.now)) }
{
    if has_ended(st, p) {
        return Ok(stopped(st));
    }
    if !p.of.is_same(ty) {
        return Ok(stuck(st));
    }
    constrained_at(alloc, q, body, i, c, values, ty, p, st, printed)
}

/// `callvirt` after `constrained.`.
pub(crate) fn constrained_on<Q: Answers>(
    alloc: Global,
    q: &Q,
    body: &Body,
    i: &Instruction,
    c: &Callee,
    values: Seq<Value>,
    ty: &TypeExpr,
    this: Value,
    st: &mut State,
    printed: &mut Vec<u8>,
) -> Result<StepOut, NoMemory>
    requires { printed.old.items ≡ [] }
    ensures { IfOk result (λ out. next_of out st.new printed.new.items ≡ constrained_on (Q.queries q.now) (here_by body.now st.old) i.now (callee_by c.now) values st.old ty.now this) }
{
    match this {
        Value::Null => raise(alloc, q, CoreName::NullReferenceException, st),
        Value::Pointer(p) => {
            let out = constrained_to(alloc, q, body, i, c, values, ty, p.get(), st, printed)?;
            drop(p);
            Ok(out)
        }
        Value::Object(_) => Ok(stuck(st)),
        Value::I4(_) => Ok(stuck(st)),
        Value::I8(_) => Ok(stuck(st)),
        Value::Native(_) => Ok(stuck(st)),
        Value::Struct(_, _) => Ok(stuck(st)),
        Value::Handle(_) => Ok(stuck(st)),
        Value::FieldHandle(_) => Ok(stuck(st)),
    }
}
