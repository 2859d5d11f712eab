//! The cells of an exception.

ghost use Rattle.std.specs.Prelude.{◌≡◌, Some, None, IfOk, MatchBool};
ghost use Rattle.std.specs.Option.{option_copied};
ghost use Rattle.rules.specs.step_rules.CoreObjects.{cell_at, put_cell};
ghost use Rattle.rules.specs.step_rules.Places.{put_cell_in};
ghost use Rattle.cil_core.specs.cil_exceptions.Cells.{new_heap};

use il_base::cil_values::{Cell, Heap, Obj, State, Value};
use il_base::{NoMemory, Seq};
use machine_words::cil_places::{cell_in, with_cell};
use machine_words::cil_queries::Answers;
use std::alloc::Global;

/// Puts a value into a cell of an object. False where it has no such cell: then nothing is changed.
fn put_in<Q: Answers>(
    alloc: Global,
    q: &Q,
    cell: Cell,
    v: &Value,
    o: &mut Obj,
) -> Result<bool, NoMemory>
    ensures { IfOk result (λ done. MatchBool done (put_cell_in (Q.queries q.now) cell v.now o.old ≡ Some o.new) ((put_cell_in (Q.queries q.now) cell v.now o.old ≡ None) × (o.new ≡ o.old))) }
{
    match o {
        Obj::Instance { of, cells } => with_cell(alloc, q, of, cells, cell, v),
        Obj::Array { .. } => Ok(false),
        Obj::Boxed { .. } => Ok(false),
        Obj::Str(_) => Ok(false),
        Obj::TypeOf(_) => Ok(false),
        Obj::Member(_, _) => Ok(false),
    }
}

/// Puts a value into a cell of the object with a number. False where there is no such cell: then nothing is changed.
fn put_at<Q: Answers>(
    alloc: Global,
    q: &Q,
    heap: &mut Heap,
    at: u32,
    cell: Cell,
    v: &Value,
) -> Result<bool, NoMemory>
    ensures { IfOk result (λ done. MatchBool done (new_heap (Q.queries q.now) cell v.now heap.old at ≡ Some heap.new) ((new_heap (Q.queries q.now) cell v.now heap.old at ≡ None) × (heap.new ≡ heap.old))) }
{
    if heap.get(at).is_none() {
        return Ok(false);
    }
    let mut o = heap.replace(at, Obj::Str(Seq::new(alloc)));
    let done = put_in(alloc, q, cell, v, &mut o);
    heap.set(at, o);
    done
}

/// Puts a value into a cell of the object that another names. False where there is no such cell: then nothing is changed.
#[tactic(auto, using(crate::proofs::lemmas::cil_exceptions::Held::heap_is, crate::proofs::lemmas::cil_exceptions::Held::heap_none))]
pub(crate) fn put_cell<Q: Answers>(
    alloc: Global,
    q: &Q,
    cell: Cell,
    v: &Value,
    this: &Value,
    st: &mut State,
) -> Result<bool, NoMemory>
    ensures { IfOk result (λ done. MatchBool done (put_cell (Q.queries q.now) st.old cell v.now this.now ≡ Some st.new) ((put_cell (Q.queries q.now) st.old cell v.now this.now ≡ None) × (st.new ≡ st.old))) }
{
    match this {
        Value::Object(at) => put_at(alloc, q, &mut st.heap, *at, cell, v),
        Value::Null => Ok(false),
        Value::I4(_) => Ok(false),
        Value::I8(_) => Ok(false),
        Value::Native(_) => Ok(false),
        Value::Pointer(_) => Ok(false),
        Value::Struct(_, _) => Ok(false),
        Value::Handle(_) => Ok(false),
        Value::FieldHandle(_) => Ok(false),
    }
}

/// A copy of the value in a cell of the object that a value names. None where there is no such cell.
pub(crate) fn cell_at<Q: Answers>(
    alloc: Global,
    q: &Q,
    st: &State,
    cell: Cell,
    this: &Value,
) -> Result<Option<Value>, NoMemory>
    ensures { IfOk result (λ v. v ≡ cell_at (Q.queries q.now) st.now cell this.now) }
{
    let Value::Object(at) = this else {
        return Ok(None);
    };
    let Some(o) = st.heap.get(*at) else {
        return Ok(None);
    };
    let Some(v) = cell_in(alloc, q, cell, o)? else {
        return Ok(None);
    };
    let copy = v.copy(alloc)?;
    Ok(Some(copy))
}
