//! Simple stores to locals (III.3.63).

ghost use Rattle.std.specs.Prelude.{◌≡◌, ◌<◌, length, drop, Some, IfOk, IfSome};
ghost use Rattle.std.specs.Option.{option_and_then};
ghost use Rattle.rules.specs.step_rules.Closing.{closed_slot};
ghost use Rattle.rules.specs.step_rules.Places.{set_local};
ghost use Rattle.rules.specs.step_rules.Slots.{store_local};
ghost use Rattle.rules.specs.step_rules.Stores.{fits};
ghost use Rattle.rules.specs.step_rules.Words.{args_of, moved};
ghost use Rattle.machine_words.specs.cil_words.Steps.{here_by};
ghost use Rattle.cil_machine.specs.Quiet.{QuietBy};

use crate::quiet::moves::take_one;
use crate::quiet::values::plain_reference;
use il_base::cil_values::{Instruction, Prefix, Shape, State, Use, Value};
use il_base::world_model::{Known, TypeExpr};
use il_base::{NoMemory, element};
use machine_numbers::cil_operands::operand;
use machine_words::cil_queries::Answers;
use machine_words::cil_stores::narrowed;
use machine_words::cil_words::{Body, may_go};
use std::alloc::Global;

/// A number or a reference to an object as a slot of a closed type keeps it.
#[inline(always)]
#[tactic(auto, unfolding(rules::specs::step_rules::Stores::fits))]
fn fits_plain<Q: Answers>(
    alloc: Global,
    q: &Q,
    ty: &TypeExpr,
    v: &Value,
) -> Result<Option<Value>, NoMemory>
    ensures { IfOk result (λ kept. IfSome kept (λ w. fits (Q.queries q.now) ty.now v.now ≡ Some w)) }
{
    match q.shape(alloc, ty)? {
        Shape::Integer(code) => Ok(narrowed(code, v)),
        Shape::Reference => Ok(plain_reference(v)),
        _ => Ok(None),
    }
}

/// The same, of a primitive type, which is the same in every method.
#[inline(always)]
#[tactic(auto, using(machine_words::proofs::lemmas::cil_closing::Settling::settled_slot))]
fn keeps_plain<Q: Answers>(
    alloc: Global,
    q: &Q,
    st: &State,
    ty: &TypeExpr,
    v: &Value,
) -> Result<Option<Value>, NoMemory>
    ensures { IfOk result (λ kept. IfSome kept (λ w. option_and_then (λ e. fits (Q.queries q.now) e v.now) (closed_slot (Q.queries q.now) (args_of st.now.top.method.owner) st.now.top.method.args ty.now) ≡ Some w)) }
{
    let _ = st;
    let TypeExpr::Prim(code) = ty else {
        return Ok(None);
    };
    if *code == element::VOID {
        return Ok(None);
    }
    let kept = fits_plain(alloc, q, ty, v)?;
    Ok(kept)
}

/// Takes an operand off, puts a value into a local, and goes on.
#[inline(always)]
fn puts_local(i: &Instruction, at: usize, v: Value, st: &mut State)
    requires { at < length st.old.top.locals }
    ensures { st.new ≡ moved i.now.next (drop 1 st.old.top.stack) (record st.old { top = set_local at v st.old.top }) }
{
    take_one(&mut st.top.stack);
    st.top.locals.set(at, v);
    st.top.at = i.next;
    st.top.prefix = Prefix::None;
}

/// `stloc` (III.3.63) of a local of a primitive type.
#[inline(always)]
pub(crate) fn store_local<Q: Answers>(
    alloc: Global,
    q: &Q,
    body: &Body,
    i: &Instruction,
    st: &mut State,
) -> Result<bool, NoMemory>
    ensures { IfOk result (λ went. QuietBy went (store_local (Q.queries q.now) (here_by body.now st.old) i.now st.old) st.old st.new) }
{
    let Use::Slot(at) = &i.operand else {
        return Ok(false);
    };
    let at = *at as usize;
    let Known::Good(types) = &body.code.locals else {
        return Ok(false);
    };
    let Some(ty) = types.get(at) else {
        return Ok(false);
    };
    let Some(_) = st.top.locals.get(at) else {
        return Ok(false);
    };
    let Some((top, _)) = operand(st) else {
        return Ok(false);
    };
    let Some(v) = keeps_plain(alloc, q, st, ty, top)? else {
        return Ok(false);
    };
    if !may_go(body.code, i.at, i.next) {
        return Ok(false);
    }
    puts_local(i, at, v, st);
    Ok(true)
}
