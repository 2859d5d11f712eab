//! GetValue and SetValue of FieldInfo.

ghost use Rattle.std.specs.Prelude.{◌≡◌, true, [], IfOk};
ghost use Rattle.std.specs.Option.{option_map};
ghost use Rattle.il_base.specs.declared.world_model.expr.TypeExpr.{TypeExpr as Expr};
ghost use Rattle.il_base.specs.declared.cil_values.value.Value.{Value as KeptValue};
ghost use Rattle.il_base.specs.declared.cil_values.value.Value.TheVariants.{Object};
ghost use Rattle.il_base.specs.declared.cil_values.path.Path.{Path};
ghost use Rattle.il_base.specs.declared.cil_values.state.State.{State as At};
ghost use Rattle.rules.specs.step_rules.Next.{Next};
ghost use Rattle.rules.specs.step_rules.Words.{given, had};
ghost use Rattle.rules.specs.step_rules.Stores.{fits};
ghost use Rattle.rules.specs.step_rules.Places.{at_place, global_of, put_at, with_global};
ghost use Rattle.rules.specs.step_rules.Fields.{field_place, with_static};
ghost use Rattle.rules.specs.step_rules.Frames.{started};
ghost use Rattle.rules.specs.step_rules.CoreWords.{Gives, gives_boxed, gives_nothing};
ghost use Rattle.rules.specs.step_rules.CoreInvoking.{by_taken, with_target};
ghost use Rattle.rules.specs.step_rules.CoreFields.{with_value, accessed_by, accessed_in, field_get_form, field_set_form, gives_field, gives_static, reachable, reads, sets_static, writes, writes_field, writes_static};
ghost use Rattle.machine_words.specs.cil_closing.Callees.{accessed_by as closed_by};
ghost use Rattle.cil_core.specs.cil_members.Outs.{gives_by};
ghost use Rattle.cil_reflect.specs.Aims.{again, ready_next, taken_by};
ghost use Rattle.machine_numbers.specs.cil_pointers.Reaching.{reached_by};

use crate::arguments::{Kept, arg_as};
use crate::frames::started_again;
use crate::targets::{Aim, is_open_owner, with_target};
use cil_core::cil_members::{CoreOut, raised, stopped_member, stuck_member};
use cil_core::gives_boxed;
use il_base::cil_values::{Path, State, Value};
use il_base::core_table::CoreName;
use il_base::world_model::TypeExpr;
use il_base::{Item, NoMemory};
use machine_numbers::cil_pointers::Reached;
use machine_objects::cil_fields::{
    Ready, is_literal, is_static, reach_field, static_type, with_static,
};
use machine_words::cil_closing::Accessed;
use machine_words::cil_objects::member_by;
use machine_words::cil_places::{global_of, put_place, with_global};
use machine_words::cil_queries::Answers;
use machine_words::cil_stores::fits;
use std::alloc::Global;

// ---- the field

/// A field in the type in which it was found. None for another item.
fn accessed_in<'a, Q: Answers>(
    alloc: Global,
    q: &'a Q,
    owner: &TypeExpr,
    item: Item,
) -> Result<Option<Accessed<'a>>, NoMemory>
    ensures { IfOk result (λ found. option_map closed_by found ≡ accessed_in (Q.queries q.now) owner.now item) }
{
    let Item::Field(id) = item else {
        return Ok(None);
    };
    let Some(field) = q.field(id.0) else {
        return Ok(None);
    };
    let owner = owner.copy(alloc)?;
    Ok(Some(Accessed {
        id: id.0,
        owner,
        field,
    }))
}

/// The field whose object a value names. None for another value.
fn accessed_by<'a, Q: Answers>(
    alloc: Global,
    q: &'a Q,
    st: &State,
    v: &Value,
) -> Result<Option<Accessed<'a>>, NoMemory>
    ensures { IfOk result (λ found. option_map closed_by found ≡ accessed_by (Q.queries q.now) st.now v.now) }
{
    let Some(m) = member_by(st, v) else {
        return Ok(None);
    };
    accessed_in(alloc, q, m.owner, m.item)
}

/// The place of a field of an object, and its value.
fn reached<Q: Answers>(
    alloc: Global,
    q: &Q,
    a: &Accessed,
    at: u32,
    st: &State,
) -> Result<Reached, NoMemory>
    ensures { IfOk result (λ x. (f : Path → KeptValue → Next) → field_place (Q.queries q.now) (closed_by a.now) (Object at) st.now (λ p. at_place (Q.queries q.now) p st.now (f p)) ≡ reached_by (Q.queries q.now) x st.now f) }
{
    let object = Value::Object(at);
    let x = reach_field(alloc, q, a, &object, st)?;
    Ok(x)
}

/// An access to a static field. One that wasn't accessed before begins now.
fn readied<Q: Answers>(
    alloc: Global,
    q: &Q,
    a: &Accessed,
    st: &mut State,
) -> Result<Ready, NoMemory>
    ensures { IfOk result (λ x. (f : Expr → At → Next) → with_static (Q.queries q.now) (closed_by a.now) st.old f ≡ ready_next x st.new f) }
{
    let x = with_static(alloc, q, a, st)?;
    Ok(x)
}

// ---- GetValue(object)

fn gives_global<Q: Answers>(
    alloc: Global,
    q: &Q,
    a: &Accessed,
    ty: &TypeExpr,
    st: &mut State,
) -> Result<CoreOut, NoMemory>
    ensures { IfOk result (λ out. (give : Gives) → had (global_of st.old a.now.id a.now.owner) st.old (λ v. gives_boxed (Q.queries q.now) ty.now v st.old give) ≡ gives_by out st.new [] give) }
{
    let Some(v) = global_of(st, a.id, &a.owner) else {
        return Ok(stopped_member(st));
    };
    let v = v.copy(alloc)?;
    gives_boxed(alloc, q, ty, v, st)
}

/// The value of a static field that was accessed.
fn gives_ready<Q: Answers>(
    alloc: Global,
    q: &Q,
    a: &Accessed,
    x: Ready,
    st: &mut State,
) -> Result<CoreOut, NoMemory>
    ensures { IfOk result (λ out. (give : Gives) → ready_next x st.old (λ e t. had (global_of t a.now.id a.now.owner) t (λ v. gives_boxed (Q.queries q.now) e v t give)) ≡ gives_by out st.new [] give) }
{
    match x {
        Ready::Over(out) => Ok(CoreOut::Stepped(out)),
        Ready::Is(ty) => {
            let out = gives_global(alloc, q, a, &ty, st);
            drop(ty);
            out
        }
    }
}

/// The value of a static field.
fn gives_static<Q: Answers>(
    alloc: Global,
    q: &Q,
    a: &Accessed,
    st: &mut State,
) -> Result<CoreOut, NoMemory>
    ensures { IfOk result (λ out. (give : Gives) → gives_static (Q.queries q.now) (closed_by a.now) st.old give ≡ gives_by out st.new [] give) }
{
    let x = readied(alloc, q, a, st)?;
    let out = gives_ready(alloc, q, a, x, st)?;
    Ok(out)
}

/// The value of a field of an object, where there is one.
fn gives_reached<Q: Answers>(
    alloc: Global,
    q: &Q,
    x: Reached,
    st: &mut State,
) -> Result<CoreOut, NoMemory>
    ensures { IfOk result (λ out. (give : Gives) → reached_by (Q.queries q.now) x st.old (λ p v. gives_boxed (Q.queries q.now) p.of v st.old give) ≡ gives_by out st.new [] give) }
{
    match x {
        Reached::At(p, v) => {
            let out = gives_boxed(alloc, q, &p.of, v, st);
            drop(p);
            out
        }
        Reached::Null => raised(alloc, q, CoreName::NullReferenceException, st),
        Reached::Gone => Ok(stopped_member(st)),
        Reached::Refused => Ok(stuck_member(st)),
    }
}

/// The value of a field of an object.
fn gives_field<Q: Answers>(
    alloc: Global,
    q: &Q,
    a: &Accessed,
    at: u32,
    st: &mut State,
) -> Result<CoreOut, NoMemory>
    ensures { IfOk result (λ out. (give : Gives) → gives_field (Q.queries q.now) (closed_by a.now) st.old give at ≡ gives_by out st.new [] give) }
{
    let x = reached(alloc, q, a, at, st)?;
    let out = gives_reached(alloc, q, x, st)?;
    Ok(out)
}

/// The value of a static field, whose type's initializer may be due.
fn reads_static<Q: Answers>(
    alloc: Global,
    q: &Q,
    a: &Accessed,
    outside: bool,
    back: &[Value],
    st: &mut State,
) -> Result<CoreOut, NoMemory>
    ensures { IfOk result (λ out. (give : Gives) → started (Q.queries q.now) true a.now.owner (again outside back.now st.old) (λ t. gives_static (Q.queries q.now) (closed_by a.now) st.old give) ≡ gives_by out st.new [] give) }
{
    match started_again(alloc, q, &a.owner, outside, back, st)? {
        Some(out) => Ok(CoreOut::Stepped(out)),
        None => gives_static(alloc, q, a, st),
    }
}

/// The value of a field of the target.
fn reads_target<Q: Answers>(
    alloc: Global,
    q: &Q,
    a: &Accessed,
    target: &Value,
    st: &mut State,
) -> Result<CoreOut, NoMemory>
    ensures { IfOk result (λ out. (give : Gives) → with_target (Q.queries q.now) a.now.owner target.now st.old (gives_field (Q.queries q.now) (closed_by a.now) st.old give) ≡ gives_by out st.new [] give) }
{
    match with_target(alloc, q, st, &a.owner, target)? {
        Aim::At(at) => gives_field(alloc, q, a, at, st),
        Aim::Wrong => raised(alloc, q, CoreName::TargetException, st),
        Aim::Stuck => Ok(stuck_member(st)),
    }
}

/// The value of a field. A literal ends the run, an open type raises.
fn reads<Q: Answers>(
    alloc: Global,
    q: &Q,
    a: &Accessed,
    outside: bool,
    back: &[Value],
    target: &Value,
    st: &mut State,
) -> Result<CoreOut, NoMemory>
    ensures { IfOk result (λ out. (give : Gives) → reachable (Q.queries q.now) (closed_by a.now) st.old (reads (Q.queries q.now) (closed_by a.now) (again outside back.now st.old) st.old target.now give) ≡ gives_by out st.new [] give) }
{
    if is_literal(a) {
        return Ok(stopped_member(st));
    }
    if is_open_owner(q, &a.owner) {
        return raised(alloc, q, CoreName::InvalidOperationException, st);
    }
    if is_static(a) {
        return reads_static(alloc, q, a, outside, back, st);
    }
    reads_target(alloc, q, a, target, st)
}

/// FieldInfo.GetValue(object). `outside` says whether reflection called it, `back` has the arguments with which the call comes again.
#[tactic(auto, unfolding(rules::specs::step_rules::CoreFields::field_get_form))]
pub(crate) fn field_get<Q: Answers>(
    alloc: Global,
    q: &Q,
    outside: bool,
    back: &[Value],
    args: &[Value],
    st: &mut State,
) -> Result<CoreOut, NoMemory>
    ensures { IfOk result (λ out. (give : Gives) → field_get_form (again outside back.now st.old) (Q.queries q.now) args.now st.old give ≡ gives_by out st.new [] give) }
{
    let [v, target] = args else {
        return Ok(stuck_member(st));
    };
    let Some(a) = accessed_by(alloc, q, st, v)? else {
        return Ok(stuck_member(st));
    };
    let out = reads(alloc, q, &a, outside, back, target, st);
    drop(a);
    out
}

// ---- SetValue(object, object)

fn puts_static<Q: Answers>(
    alloc: Global,
    q: &Q,
    a: &Accessed,
    ty: &TypeExpr,
    w: Value,
    st: &mut State,
) -> Result<CoreOut, NoMemory>
    ensures { IfOk result (λ out. (give : Gives) → given (fits (Q.queries q.now) ty.now w) st.old (λ kept. gives_nothing (with_global a.now.id a.now.owner kept st.old) give) ≡ gives_by out st.new [] give) }
{
    let Some(kept) = fits(alloc, q, ty, w)? else {
        return Ok(stuck_member(st));
    };
    with_global(alloc, st, a.id, &a.owner, &kept)?;
    drop(kept);
    Ok(CoreOut::Gave(None))
}

/// A static field that was accessed has another value.
fn sets_ready<Q: Answers>(
    alloc: Global,
    q: &Q,
    a: &Accessed,
    x: Ready,
    w: Value,
    st: &mut State,
) -> Result<CoreOut, NoMemory>
    ensures { IfOk result (λ out. (give : Gives) → ready_next x st.old (λ e t. given (fits (Q.queries q.now) e w) t (λ kept. gives_nothing (with_global a.now.id a.now.owner kept t) give)) ≡ gives_by out st.new [] give) }
{
    match x {
        Ready::Over(out) => {
            drop(w);
            Ok(CoreOut::Stepped(out))
        }
        Ready::Is(ty) => {
            let out = puts_static(alloc, q, a, &ty, w, st);
            drop(ty);
            out
        }
    }
}

/// A static field has another value.
fn sets_static<Q: Answers>(
    alloc: Global,
    q: &Q,
    a: &Accessed,
    w: Value,
    st: &mut State,
) -> Result<CoreOut, NoMemory>
    ensures { IfOk result (λ out. (give : Gives) → sets_static (Q.queries q.now) (closed_by a.now) st.old give w ≡ gives_by out st.new [] give) }
{
    let x = readied(alloc, q, a, st)?;
    let out = sets_ready(alloc, q, a, x, w, st)?;
    Ok(out)
}

/// A static field gets a value that fits it, after the type's initializer.
fn starts_static<Q: Answers>(
    alloc: Global,
    q: &Q,
    a: &Accessed,
    outside: bool,
    back: &[Value],
    w: Value,
    st: &mut State,
) -> Result<CoreOut, NoMemory>
    ensures { IfOk result (λ out. (give : Gives) → started (Q.queries q.now) true a.now.owner (again outside back.now st.old) (λ t. sets_static (Q.queries q.now) (closed_by a.now) st.old give w) ≡ gives_by out st.new [] give) }
{
    match started_again(alloc, q, &a.owner, outside, back, st)? {
        Some(out) => {
            drop(w);
            Ok(CoreOut::Stepped(out))
        }
        None => sets_static(alloc, q, a, w, st),
    }
}

/// A static field gets what an argument is for it.
fn fills_kept<Q: Answers>(
    alloc: Global,
    q: &Q,
    a: &Accessed,
    outside: bool,
    back: &[Value],
    kept: Kept,
    st: &mut State,
) -> Result<CoreOut, NoMemory>
    ensures { IfOk result (λ out. (give : Gives) → by_taken (Q.queries q.now) st.old (taken_by kept) (λ w. started (Q.queries q.now) true a.now.owner (again outside back.now st.old) (λ t. sets_static (Q.queries q.now) (closed_by a.now) st.old give w)) ≡ gives_by out st.new [] give) }
{
    match kept {
        Kept::Is(w) => starts_static(alloc, q, a, outside, back, w, st),
        Kept::Unfit => raised(alloc, q, CoreName::ArgumentException, st),
        Kept::Stopped => Ok(stopped_member(st)),
    }
}

fn fills_static<Q: Answers>(
    alloc: Global,
    q: &Q,
    a: &Accessed,
    ty: &TypeExpr,
    outside: bool,
    back: &[Value],
    v: &Value,
    st: &mut State,
) -> Result<CoreOut, NoMemory>
    ensures { IfOk result (λ out. (give : Gives) → with_value (Q.queries q.now) ty.now v.now st.old (λ w. started (Q.queries q.now) true a.now.owner (again outside back.now st.old) (λ t. sets_static (Q.queries q.now) (closed_by a.now) st.old give w)) ≡ gives_by out st.new [] give) }
{
    let kept = arg_as(alloc, q, st, ty, v)?;
    let out = fills_kept(alloc, q, a, outside, back, kept, st)?;
    Ok(out)
}

/// A static field gets a value, if it fits.
fn writes_static<Q: Answers>(
    alloc: Global,
    q: &Q,
    a: &Accessed,
    outside: bool,
    back: &[Value],
    v: &Value,
    st: &mut State,
) -> Result<CoreOut, NoMemory>
    ensures { IfOk result (λ out. (give : Gives) → writes_static (Q.queries q.now) (closed_by a.now) (again outside back.now st.old) st.old v.now give ≡ gives_by out st.new [] give) }
{
    let Some(ty) = static_type(alloc, q, a)? else {
        return Ok(stopped_member(st));
    };
    let out = fills_static(alloc, q, a, &ty, outside, back, v, st);
    drop(ty);
    out
}

/// A place gets a value that fits it.
#[tactic(auto, unfolding(rules::specs::step_rules::Places::put_at))]
fn puts_field<Q: Answers>(
    alloc: Global,
    q: &Q,
    p: &Path,
    w: Value,
    st: &mut State,
) -> Result<CoreOut, NoMemory>
    ensures { IfOk result (λ out. (give : Gives) → given (fits (Q.queries q.now) p.now.of w) st.old (λ kept. put_at (Q.queries q.now) p.now kept st.old (λ t. gives_nothing t give)) ≡ gives_by out st.new [] give) }
{
    let Some(kept) = fits(alloc, q, &p.of, w)? else {
        return Ok(stuck_member(st));
    };
    if put_place(alloc, q, st, p, kept)? {
        Ok(CoreOut::Gave(None))
    } else {
        Ok(stopped_member(st))
    }
}

/// A place gets what an argument is for it.
fn puts_kept<Q: Answers>(
    alloc: Global,
    q: &Q,
    p: &Path,
    kept: Kept,
    st: &mut State,
) -> Result<CoreOut, NoMemory>
    ensures { IfOk result (λ out. (give : Gives) → by_taken (Q.queries q.now) st.old (taken_by kept) (λ w. given (fits (Q.queries q.now) p.now.of w) st.old (λ kept. put_at (Q.queries q.now) p.now kept st.old (λ t. gives_nothing t give))) ≡ gives_by out st.new [] give) }
{
    match kept {
        Kept::Is(w) => puts_field(alloc, q, p, w, st),
        Kept::Unfit => raised(alloc, q, CoreName::ArgumentException, st),
        Kept::Stopped => Ok(stopped_member(st)),
    }
}

fn fills_field<Q: Answers>(
    alloc: Global,
    q: &Q,
    p: &Path,
    v: &Value,
    st: &mut State,
) -> Result<CoreOut, NoMemory>
    ensures { IfOk result (λ out. (give : Gives) → with_value (Q.queries q.now) p.now.of v.now st.old (λ w. given (fits (Q.queries q.now) p.now.of w) st.old (λ kept. put_at (Q.queries q.now) p.now kept st.old (λ t. gives_nothing t give))) ≡ gives_by out st.new [] give) }
{
    let kept = arg_as(alloc, q, st, &p.of, v)?;
    let out = puts_kept(alloc, q, p, kept, st)?;
    Ok(out)
}

/// A field of an object gets a value, if there is one and the value fits.
fn fills_reached<Q: Answers>(
    alloc: Global,
    q: &Q,
    x: Reached,
    v: &Value,
    st: &mut State,
) -> Result<CoreOut, NoMemory>
    ensures { IfOk result (λ out. (give : Gives) → reached_by (Q.queries q.now) x st.old (λ p old. with_value (Q.queries q.now) p.of v.now st.old (λ w. given (fits (Q.queries q.now) p.of w) st.old (λ kept. put_at (Q.queries q.now) p kept st.old (λ t. gives_nothing t give)))) ≡ gives_by out st.new [] give) }
{
    match x {
        Reached::At(p, old) => {
            drop(old);
            let out = fills_field(alloc, q, &p, v, st);
            drop(p);
            out
        }
        Reached::Null => raised(alloc, q, CoreName::NullReferenceException, st),
        Reached::Gone => Ok(stopped_member(st)),
        Reached::Refused => Ok(stuck_member(st)),
    }
}

/// A field of an object gets a value, if it fits.
fn writes_field<Q: Answers>(
    alloc: Global,
    q: &Q,
    a: &Accessed,
    at: u32,
    v: &Value,
    st: &mut State,
) -> Result<CoreOut, NoMemory>
    ensures { IfOk result (λ out. (give : Gives) → writes_field (Q.queries q.now) (closed_by a.now) st.old v.now give at ≡ gives_by out st.new [] give) }
{
    let x = reached(alloc, q, a, at, st)?;
    let out = fills_reached(alloc, q, x, v, st)?;
    Ok(out)
}

/// A field of the target gets a value, if it fits.
fn writes_target<Q: Answers>(
    alloc: Global,
    q: &Q,
    a: &Accessed,
    target: &Value,
    v: &Value,
    st: &mut State,
) -> Result<CoreOut, NoMemory>
    ensures { IfOk result (λ out. (give : Gives) → with_target (Q.queries q.now) a.now.owner target.now st.old (writes_field (Q.queries q.now) (closed_by a.now) st.old v.now give) ≡ gives_by out st.new [] give) }
{
    match with_target(alloc, q, st, &a.owner, target)? {
        Aim::At(at) => writes_field(alloc, q, a, at, v, st),
        Aim::Wrong => raised(alloc, q, CoreName::TargetException, st),
        Aim::Stuck => Ok(stuck_member(st)),
    }
}

/// A field gets a value. A literal ends the run, an open type raises.
fn writes<Q: Answers>(
    alloc: Global,
    q: &Q,
    a: &Accessed,
    outside: bool,
    back: &[Value],
    target: &Value,
    v: &Value,
    st: &mut State,
) -> Result<CoreOut, NoMemory>
    ensures { IfOk result (λ out. (give : Gives) → reachable (Q.queries q.now) (closed_by a.now) st.old (writes (Q.queries q.now) (closed_by a.now) (again outside back.now st.old) st.old target.now v.now give) ≡ gives_by out st.new [] give) }
{
    if is_literal(a) {
        return Ok(stopped_member(st));
    }
    if is_open_owner(q, &a.owner) {
        return raised(alloc, q, CoreName::InvalidOperationException, st);
    }
    if is_static(a) {
        return writes_static(alloc, q, a, outside, back, v, st);
    }
    writes_target(alloc, q, a, target, v, st)
}

/// FieldInfo.SetValue(object, object). `outside` says whether reflection called it, `back` has the arguments with which the call comes
/// again.
#[tactic(auto, unfolding(rules::specs::step_rules::CoreFields::field_set_form))]
pub(crate) fn field_set<Q: Answers>(
    alloc: Global,
    q: &Q,
    outside: bool,
    back: &[Value],
    args: &[Value],
    st: &mut State,
) -> Result<CoreOut, NoMemory>
    ensures { IfOk result (λ out. (give : Gives) → field_set_form (again outside back.now st.old) (Q.queries q.now) args.now st.old give ≡ gives_by out st.new [] give) }
{
    let [v, target, w] = args else {
        return Ok(stuck_member(st));
    };
    let Some(a) = accessed_by(alloc, q, st, v)? else {
        return Ok(stuck_member(st));
    };
    let out = writes(alloc, q, &a, outside, back, target, w, st);
    drop(a);
    out
}
