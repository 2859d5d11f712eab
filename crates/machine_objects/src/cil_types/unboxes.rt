//! `unbox` (III.4.32) and `unbox.any` (III.4.33).

ghost use Rattle.std.specs.Prelude.{◌≡◌, [], ℕ, drop, IfOk, MatchResult};
ghost use Rattle.std.specs.Option.{option_copied};
ghost use Rattle.il_base.specs.declared.cil_values.value.Value.{Value};
ghost use Rattle.il_base.specs.declared.cil_values.value.Value.TheVariants as value;
ghost use Rattle.il_base.specs.declared.cil_values.resolved.Instruction.{Instruction};
ghost use Rattle.rules.specs.step_rules.Queries.{Queries};
ghost use Rattle.rules.specs.step_rules.Next.{Next};
ghost use Rattle.rules.specs.step_rules.Words.{Here};
ghost use Rattle.rules.specs.step_rules.Closing.{closed};
ghost use Rattle.rules.specs.step_rules.Dispatch.{path_into_box};
ghost use Rattle.rules.specs.step_rules.Types.{boxed_of, unboxes, unbox_pointer, unbox_value, unboxed, unbox};
ghost use Rattle.machine_words.specs.cil_words.Steps.{next_of, here_by};
ghost use Rattle.machine_numbers.specs.cil_operands.Outcomes.{outcome_of, refused};
ghost use Rattle.machine_objects.specs.cil_types.Boxing.{pointer_by, value_by};

use crate::cil_types::casts::cast_class;
use il_base::cil_values::{Instruction, Obj, Path, Root, State, Use, Value};
use il_base::core_table::CoreName;
use il_base::world_model::{Known, TypeExpr};
use il_base::{NoMemory, Seq, opcode};
use machine_numbers::cil_operands::{Refusal, comes_to, operand};
use machine_words::cil_closing::{args_of, closed_slot};
use machine_words::cil_queries::Answers;
use machine_words::cil_stores::{is_reference, is_value};
use machine_words::cil_words::{Body, StepOut, stopped, stuck};
use std::alloc::Global;

/// The value in a box of exactly this type. An enum isn't its underlying type.
pub fn boxed_of<'a>(ty: &TypeExpr, o: &'a Obj) -> Option<&'a Value>
    ensures { option_copied result ≡ boxed_of ty.now o.now }
{
    match o {
        Obj::Boxed { of, value } => { if of.is_same(ty) { Some(value) } else { None } }
        Obj::Instance { .. } => None,
        Obj::Array { .. } => None,
        Obj::Str(_) => None,
        Obj::TypeOf(_) => None,
        Obj::Member(_, _) => None,
    }
}

/// The box that a value names, by its place in the heap, and the value in it.
#[tactic(auto, unfolding(machine_numbers::specs::cil_operands::Outcomes::refused))]
fn boxed_at<'a>(st: &'a State, ty: &TypeExpr, r: &Value) -> Result<(u32, &'a Value), Refusal>
    ensures { MatchResult result (λ p. (q : Queries) (f : ℕ → Value → Next) → unboxes q st.now ty.now r.now f ≡ f p.0 p.1.now) (λ why. (q : Queries) (f : ℕ → Value → Next) → unboxes q st.now ty.now r.now f ≡ refused q st.now why) }
{
    match r {
        Value::Null => Err(Refusal::Raises(CoreName::NullReferenceException)),
        Value::Object(a) => {
            let Some(o) = st.heap.get(*a) else {
                return Err(Refusal::Stuck);
            };
            match boxed_of(ty, o) {
                Some(v) => Ok((*a, v)),
                None => Err(Refusal::Raises(CoreName::InvalidCastException)),
            }
        }
        Value::I4(_) => Err(Refusal::Stuck),
        Value::I8(_) => Err(Refusal::Stuck),
        Value::Native(_) => Err(Refusal::Stuck),
        Value::Pointer(_) => Err(Refusal::Stuck),
        Value::Struct(_, _) => Err(Refusal::Stuck),
        Value::Handle(_) => Err(Refusal::Stuck),
        Value::FieldHandle(_) => Err(Refusal::Stuck),
    }
}

/// A pointer to the value in a box.
fn box_pointer(alloc: Global, a: u32, ty: &TypeExpr) -> Result<Result<Value, Refusal>, NoMemory>
    ensures { IfOk result (λ out. out ≡ Ok (value.Pointer (path_into_box a ty.now))) }
{
    let of = ty.copy(alloc)?;
    let path = Path {
        root: Root::Boxed(a),
        steps: Seq::new(alloc),
        of,
    };
    let pointer = Value::pointer(alloc, path)?;
    Ok(Ok(pointer))
}

fn copied(alloc: Global, v: &Value) -> Result<Result<Value, Refusal>, NoMemory>
    ensures { IfOk result (λ out. out ≡ Ok v.now) }
{
    let v = v.copy(alloc)?;
    Ok(Ok(v))
}

/// What `unbox` of a value type gives: a pointer into the box.
fn pointer_of(alloc: Global, st: &State, ty: &TypeExpr) -> Result<Result<Value, Refusal>, NoMemory>
    ensures { IfOk result (λ out. (q : Queries) (here : Here) (i : Instruction) → outcome_of q here i st.now (drop 1 st.now.top.stack) out ≡ pointer_by q here i st.now ty.now) }
{
    let Some((r, _)) = operand(st) else {
        return Ok(Err(Refusal::Stuck));
    };
    match boxed_at(st, ty, r) {
        Ok((a, _)) => box_pointer(alloc, a, ty),
        Err(why) => Ok(Err(why)),
    }
}

/// What `unbox.any` of a value type gives: the value in the box.
fn value_of(alloc: Global, st: &State, ty: &TypeExpr) -> Result<Result<Value, Refusal>, NoMemory>
    ensures { IfOk result (λ out. (q : Queries) (here : Here) (i : Instruction) → outcome_of q here i st.now (drop 1 st.now.top.stack) out ≡ value_by q here i st.now ty.now) }
{
    let Some((r, _)) = operand(st) else {
        return Ok(Err(Refusal::Stuck));
    };
    match boxed_at(st, ty, r) {
        Ok((_, v)) => copied(alloc, v),
        Err(why) => Ok(Err(why)),
    }
}

/// `unbox` of a closed type.
fn unbox_pointer<Q: Answers>(
    alloc: Global,
    q: &Q,
    body: &Body,
    i: &Instruction,
    ty: &TypeExpr,
    st: &mut State,
) -> Result<StepOut, NoMemory>
    ensures { IfOk result (λ out. next_of out st.new [] ≡ unbox_pointer (Q.queries q.now) (here_by body.now st.old) i.now st.old ty.now) }
{
    if !is_value(alloc, q, ty)? {
        return Ok(stuck(st));
    }
    let outcome = pointer_of(alloc, st, ty)?;
    comes_to(alloc, q, body, i, 1, outcome, st)
}

/// `unbox.any` of a closed type. Of a reference type it is `castclass`.
fn unbox_value<Q: Answers>(
    alloc: Global,
    q: &Q,
    body: &Body,
    i: &Instruction,
    ty: &TypeExpr,
    st: &mut State,
) -> Result<StepOut, NoMemory>
    ensures { IfOk result (λ out. next_of out st.new [] ≡ unbox_value (Q.queries q.now) (here_by body.now st.old) i.now st.old ty.now) }
{
    if is_reference(alloc, q, ty)? {
        return cast_class(alloc, q, body, i, ty, st);
    }
    if !is_value(alloc, q, ty)? {
        return Ok(stuck(st));
    }
    let outcome = value_of(alloc, st, ty)?;
    comes_to(alloc, q, body, i, 1, outcome, st)
}

fn unboxed<Q: Answers>(
    alloc: Global,
    q: &Q,
    body: &Body,
    i: &Instruction,
    ty: &TypeExpr,
    st: &mut State,
) -> Result<StepOut, NoMemory>
    ensures { IfOk result (λ out. next_of out st.new [] ≡ unboxed (Q.queries q.now) (here_by body.now st.old) i.now st.old ty.now) }
{
    if i.opcode == opcode::UNBOX {
        unbox_pointer(alloc, q, body, i, ty, st)
    } else {
        unbox_value(alloc, q, body, i, ty, st)
    }
}

/// `unbox` and `unbox.any` of the type that their operand is.
#[tactic(auto, unfolding(rules::specs::step_rules::Closing::closed))]
fn unbox_known<Q: Answers>(
    alloc: Global,
    q: &Q,
    body: &Body,
    i: &Instruction,
    known: &Known<TypeExpr>,
    st: &mut State,
) -> Result<StepOut, NoMemory>
    ensures { IfOk result (λ out. next_of out st.new [] ≡ closed (Q.queries q.now) (here_by body.now st.old) known.now st.old (unboxed (Q.queries q.now) (here_by body.now st.old) i.now st.old)) }
{
    match known {
        Known::Good(ty) => {
            let targs = args_of(&st.top.method.owner);
            match closed_slot(alloc, q, targs, st.top.method.args.as_slice(), ty)? {
                Some(ty) => unboxed(alloc, q, body, i, &ty, st),
                None => Ok(stopped(st)),
            }
        }
        Known::Bad(_) => Ok(stopped(st)),
    }
}

/// `unbox` (III.4.32) and `unbox.any` (III.4.33).
#[tactic(auto, unfolding(rules::specs::step_rules::Types::unbox))]
pub fn unbox<Q: Answers>(
    alloc: Global,
    q: &Q,
    body: &Body,
    i: &Instruction,
    st: &mut State,
) -> Result<StepOut, NoMemory>
    ensures { IfOk result (λ out. next_of out st.new [] ≡ unbox (Q.queries q.now) (here_by body.now st.old) i.now st.old) }
{
    match &i.operand {
        Use::Typ(known) => unbox_known(alloc, q, body, i, known, st),
        Use::Nothing => Ok(stuck(st)),
        Use::Number(_) => Ok(stuck(st)),
        Use::Slot(_) => Ok(stuck(st)),
        Use::Target(_) => Ok(stuck(st)),
        Use::Targets(_) => Ok(stuck(st)),
        Use::Method(_) => Ok(stuck(st)),
        Use::Field(_) => Ok(stuck(st)),
        Use::Text(_) => Ok(stuck(st)),
    }
}
