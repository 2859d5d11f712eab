//! `ldsfld`, `ldsflda` and `stsfld`, with the operands off the evaluation stack.

ghost use Rattle.std.specs.Prelude.{◌≡◌, List, [], ◌∷◌, IfOk};
ghost use Rattle.il_base.specs.declared.cil_values.value.Value.TheVariants as value;
ghost use Rattle.rules.specs.step_rules.Words.{given, goes, had};
ghost use Rattle.rules.specs.step_rules.Stores.{fits};
ghost use Rattle.rules.specs.step_rules.Places.{global_of, with_global};
ghost use Rattle.il_base.specs.declared.cil_values.value.Value.{Value};
ghost use Rattle.rules.specs.step_rules.Fields.{address_static, load_static, static_path, store_static};
ghost use Rattle.machine_words.specs.cil_words.Steps.{here_by, next_of};
ghost use Rattle.machine_words.specs.cil_closing.Callees.{accessed_by};
ghost use Rattle.machine_numbers.specs.cil_pointers.Reaching.{with_stack};

use crate::cil_fields::statics::{Ready, with_static};
use il_base::cil_values::{Instruction, Path, Root, State, Value};
use il_base::world_model::TypeExpr;
use il_base::{Boxed, FieldId, NoMemory, Seq};
use machine_numbers::cil_pointers::{discard, gives};
use machine_words::cil_closing::Accessed;
use machine_words::cil_places::{global_of, with_global};
use machine_words::cil_queries::Answers;
use machine_words::cil_stores::fits;
use machine_words::cil_words::{Body, StepOut, goes, stopped, stuck};
use std::alloc::Global;

/// Goes on with the value of a static field.
#[tactic(auto, unfolding(rules::specs::step_rules::Places::global_of))]
fn gives_global(
    alloc: Global,
    body: &Body,
    i: &Instruction,
    a: &Accessed,
    st: &mut State,
) -> Result<StepOut, NoMemory>
    ensures { IfOk result (λ out. (vs : List Value) → next_of out st.new [] ≡ had (global_of (with_stack vs st.old) a.now.id a.now.owner) (with_stack vs st.old) (λ v. goes (here_by body.now st.old) i.now (v ∷ st.old.top.stack) (with_stack vs st.old))) }
{
    let Some(v) = global_of(st, a.id, &a.owner) else {
        return Ok(stopped(st));
    };
    let v = v.copy(alloc)?;
    gives(body, i, v, st)
}

/// `ldsfld` (III.4.14), and `ldfld` of a static field.
pub(crate) fn load_static<Q: Answers>(
    alloc: Global,
    q: &Q,
    body: &Body,
    i: &Instruction,
    a: &Accessed,
    st: &mut State,
) -> Result<StepOut, NoMemory>
    ensures { IfOk result (λ out. (vs : List Value) → next_of out st.new [] ≡ load_static (Q.queries q.now) (here_by body.now st.old) i.now (accessed_by a.now) st.old.top.stack (with_stack vs st.old)) }
{
    let ready = with_static(alloc, q, a, st)?;
    match ready {
        Ready::Over(out) => Ok(out),
        Ready::Is(ty) => {
            discard(ty);
            let out = gives_global(alloc, body, i, a, st)?;
            Ok(out)
        }
    }
}

/// The pointer to a static field.
fn static_path(alloc: Global, a: &Accessed, of: TypeExpr) -> Result<Path, NoMemory>
    ensures { IfOk result (λ p. p ≡ static_path (accessed_by a.now) of) }
{
    let owner = a.owner.copy(alloc)?;
    let owner = Boxed::new(alloc, owner)?;
    Ok(Path {
        root: Root::Static(FieldId(a.id), owner),
        steps: Seq::new(alloc),
        of,
    })
}

/// `ldsflda` (III.4.15), and `ldflda` of a static field.
pub(crate) fn address_static<Q: Answers>(
    alloc: Global,
    q: &Q,
    body: &Body,
    i: &Instruction,
    a: &Accessed,
    st: &mut State,
) -> Result<StepOut, NoMemory>
    ensures { IfOk result (λ out. (vs : List Value) → next_of out st.new [] ≡ address_static (Q.queries q.now) (here_by body.now st.old) i.now (accessed_by a.now) st.old.top.stack (with_stack vs st.old)) }
{
    let ready = with_static(alloc, q, a, st)?;
    match ready {
        Ready::Over(out) => Ok(out),
        Ready::Is(ty) => {
            let p = static_path(alloc, a, ty)?;
            let pointer = Value::pointer(alloc, p)?;
            let out = gives(body, i, pointer, st)?;
            Ok(out)
        }
    }
}

/// Goes on with a static field that has another value.
fn puts_global(
    alloc: Global,
    body: &Body,
    i: &Instruction,
    a: &Accessed,
    w: &Value,
    st: &mut State,
) -> Result<StepOut, NoMemory>
    ensures { IfOk result (λ out. (vs : List Value) → next_of out st.new [] ≡ goes (here_by body.now st.old) i.now st.old.top.stack (with_global a.now.id a.now.owner w.now (with_stack vs st.old))) }
{
    with_global(alloc, st, a.id, &a.owner, w)?;
    Ok(goes(body, i, st))
}

/// Goes on with a static field that has another value, if it fits.
fn keeps<Q: Answers>(
    alloc: Global,
    q: &Q,
    body: &Body,
    i: &Instruction,
    a: &Accessed,
    ty: &TypeExpr,
    v: Value,
    st: &mut State,
) -> Result<StepOut, NoMemory>
    ensures { IfOk result (λ out. (vs : List Value) → next_of out st.new [] ≡ given (fits (Q.queries q.now) ty.now v) (with_stack vs st.old) (λ w. goes (here_by body.now st.old) i.now st.old.top.stack (with_global a.now.id a.now.owner w (with_stack vs st.old)))) }
{
    match fits(alloc, q, ty, v)? {
        None => Ok(stuck(st)),
        Some(w) => {
            let out = puts_global(alloc, body, i, a, &w, st);
            discard(w);
            out
        }
    }
}

/// `stsfld` (III.4.30), and `stfld` of a static field.
pub(crate) fn store_static<Q: Answers>(
    alloc: Global,
    q: &Q,
    body: &Body,
    i: &Instruction,
    a: &Accessed,
    v: Value,
    st: &mut State,
) -> Result<StepOut, NoMemory>
    ensures { IfOk result (λ out. (vs : List Value) → next_of out st.new [] ≡ store_static (Q.queries q.now) (here_by body.now st.old) i.now (accessed_by a.now) v st.old.top.stack (with_stack vs st.old)) }
{
    let ready = with_static(alloc, q, a, st)?;
    match ready {
        Ready::Over(out) => {
            discard(v);
            Ok(out)
        }
        Ready::Is(ty) => {
            let out = keeps(alloc, q, body, i, a, &ty, v, st)?;
            discard(ty);
            Ok(out)
        }
    }
}
