//! Loads and stores at the places of pointers.

ghost use Rattle.std.specs.Prelude.{◌≡◌, Some, None, slice_get, IfOk, MatchBool};
ghost use Rattle.std.specs.Option.{option_copied, option_and_then};
ghost use Rattle.il_base.specs.declared.cil_values.frame.Frame.{Frame};
ghost use Rattle.il_base.specs.declared.cil_values.path.Root.TheVariants as root;
ghost use Rattle.rules.specs.step_rules.Places.{frame_with, put_in, root_value, place_value, put_root, with_place};

use crate::cil_places::cells::cell_in;
use crate::cil_places::frames::{Slot, frame_with, put_slot};
use crate::cil_places::globals::{global_of, with_global};
use crate::cil_places::objects::{Part, boxed_in, element_in, put_in_object};
use crate::cil_places::structs::{discard, put_in, value_in};
use crate::cil_queries::Answers;
use il_base::cil_values::{Cell, Path, Root, State, Value};
use il_base::{FieldId, NoMemory};
use std::alloc::Global;

fn argument(st: &State, number: u64, at: u32) -> Option<&Value>
    ensures { option_copied result ≡ option_and_then (λ (f : Frame). slice_get f.args at) (frame_with number st.now) }
{
    match frame_with(st, number) {
        Some(f) => f.args.get(at as usize),
        None => None,
    }
}

fn local(st: &State, number: u64, at: u32) -> Option<&Value>
    ensures { option_copied result ≡ option_and_then (λ (f : Frame). slice_get f.locals at) (frame_with number st.now) }
{
    match frame_with(st, number) {
        Some(f) => f.locals.get(at as usize),
        None => None,
    }
}

fn field_of<'a, Q: Answers>(
    alloc: Global,
    q: &Q,
    st: &'a State,
    at: u32,
    field: FieldId,
) -> Result<Option<&'a Value>, NoMemory>
    ensures { IfOk result (λ v. option_copied v ≡ root_value (Q.queries q.now) st.now (root.Field at field)) }
{
    match st.heap.get(at) {
        Some(o) => cell_in(alloc, q, Cell::Field(field.0), o),
        None => Ok(None),
    }
}

/// The value at the root of a pointer.
fn root_value<'a, Q: Answers>(
    alloc: Global,
    q: &Q,
    st: &'a State,
    r: &Root,
) -> Result<Option<&'a Value>, NoMemory>
    ensures { IfOk result (λ v. option_copied v ≡ root_value (Q.queries q.now) st.now r.now) }
{
    match r {
        Root::Arg(number, at) => Ok(argument(st, *number, *at)),
        Root::Local(number, at) => Ok(local(st, *number, *at)),
        Root::Boxed(at) => match st.heap.get(*at) {
            Some(o) => Ok(boxed_in(o)),
            None => Ok(None),
        },
        Root::Element(at, index) => match st.heap.get(*at) {
            Some(o) => Ok(element_in(*index, o)),
            None => Ok(None),
        },
        Root::Field(at, field) => field_of(alloc, q, st, *at, *field),
        Root::Static(field, owner) => Ok(global_of(st, field.0, owner.get())),
    }
}

/// The value of a place. None where the pointer leads to none.
#[tactic(auto, unfolding(rules::specs::step_rules::Places::place_value))]
pub fn place_value<Q: Answers>(
    alloc: Global,
    q: &Q,
    st: &State,
    p: &Path,
) -> Result<Option<Value>, NoMemory>
    ensures { IfOk result (λ v. v ≡ place_value (Q.queries q.now) st.now p.now) }
{
    let Some(whole) = root_value(alloc, q, st, &p.root)? else {
        return Ok(None);
    };
    let Some(v) = value_in(p.steps.as_slice(), whole) else {
        return Ok(None);
    };
    let v = v.copy(alloc)?;
    Ok(Some(v))
}

/// Puts a value at the root of a pointer.
fn put_root<Q: Answers>(
    alloc: Global,
    q: &Q,
    st: &mut State,
    r: &Root,
    v: &Value,
) -> Result<bool, NoMemory>
    ensures { IfOk result (λ done. MatchBool done (put_root (Q.queries q.now) st.old r.now v.now ≡ Some st.new) ((put_root (Q.queries q.now) st.old r.now v.now ≡ None) × (st.new ≡ st.old))) }
{
    match r {
        Root::Arg(number, at) => {
            put_slot(alloc, st, *number, Slot::Arg(*at), v)?;
            Ok(true)
        }
        Root::Local(number, at) => {
            put_slot(alloc, st, *number, Slot::Local(*at), v)?;
            Ok(true)
        }
        Root::Boxed(at) => put_in_object(alloc, q, &mut st.heap, *at, Part::Boxed, v),
        Root::Element(at, index) => put_in_object(
            alloc,
            q,
            &mut st.heap,
            *at,
            Part::Element(*index),
            v,
        ),
        Root::Field(at, field) => put_in_object(
            alloc,
            q,
            &mut st.heap,
            *at,
            Part::Field(*field),
            v,
        ),
        Root::Static(field, owner) => {
            with_global(alloc, st, field.0, owner.get(), v)?;
            Ok(true)
        }
    }
}

/// What the root of a pointer holds after a store to the place. None where the pointer leads to none.
fn new_root<Q: Answers>(
    alloc: Global,
    q: &Q,
    st: &State,
    p: &Path,
    v: &Value,
) -> Result<Option<Value>, NoMemory>
    ensures { IfOk result (λ made. made ≡ option_and_then (put_in p.now.steps v.now) (root_value (Q.queries q.now) st.now p.now.root)) }
{
    let Some(old) = root_value(alloc, q, st, &p.root)? else {
        return Ok(None);
    };
    put_in(alloc, p.steps.as_slice(), v, old)
}

/// Puts a value into a place. False where the pointer leads to none: then nothing is changed.
#[tactic(auto, unfolding(rules::specs::step_rules::Places::with_place))]
fn put_copy<Q: Answers>(
    alloc: Global,
    q: &Q,
    st: &mut State,
    p: &Path,
    v: &Value,
) -> Result<bool, NoMemory>
    ensures { IfOk result (λ done. MatchBool done (with_place (Q.queries q.now) st.old p.now v.now ≡ Some st.new) ((with_place (Q.queries q.now) st.old p.now v.now ≡ None) × (st.new ≡ st.old))) }
{
    let Some(made) = new_root(alloc, q, st, p, v)? else {
        return Ok(false);
    };
    let done = put_root(alloc, q, st, &p.root, &made);
    discard(made);
    done
}

/// Puts a value into a place. False where the pointer leads to none: then nothing is changed.
pub fn put_place<Q: Answers>(
    alloc: Global,
    q: &Q,
    st: &mut State,
    p: &Path,
    v: Value,
) -> Result<bool, NoMemory>
    ensures { IfOk result (λ done. MatchBool done (with_place (Q.queries q.now) st.old p.now v ≡ Some st.new) ((with_place (Q.queries q.now) st.old p.now v ≡ None) × (st.new ≡ st.old))) }
{
    let done = put_copy(alloc, q, st, p, &v);
    discard(v);
    done
}
