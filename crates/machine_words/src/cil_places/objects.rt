//! Parts of objects that pointers lead to.

ghost use Rattle.std.specs.Prelude.{◌≡◌, Some, None, IfOk, MatchBool};
ghost use Rattle.std.specs.Option.{option_copied};
ghost use Rattle.rules.specs.step_rules.Places.{boxed_in, element_in, put_boxed, put_element, put_cell_in};
ghost use Rattle.il_base.specs.declared.cil_values.layout.Cell.TheVariants as cell;
ghost use Rattle.machine_words.specs.cil_places.Parts.{put_part, new_heap};

use crate::cil_places::cells::{set_if, with_cell};
use crate::cil_places::structs::discard;
use crate::cil_queries::Answers;
use il_base::cil_values::{Cell, Heap, Obj, Value};
use il_base::{FieldId, NoMemory, Seq};
use std::alloc::Global;
use std::mem;

/// A part of an object that a pointer can begin at.
#[derive(Clone, Copy, Debug, PartialEq, Eq)]
pub(crate) enum Part {
    /// The value in a box.
    Boxed,
    /// An element of an array, from 0.
    Element(u32),
    /// A field of an instance.
    Field(FieldId),
}

/// The value in a box.
pub(crate) fn boxed_in<'a>(o: &'a Obj) -> Option<&'a Value>
    ensures { option_copied result ≡ boxed_in o.now }
{
    match o {
        Obj::Boxed { value, .. } => Some(value),
        Obj::Instance { .. } => None,
        Obj::Array { .. } => None,
        Obj::Str(_) => None,
        Obj::TypeOf(_) => None,
        Obj::Member(_, _) => None,
    }
}

/// An element of an array, from 0.
pub(crate) fn element_in<'a>(at: u32, o: &'a Obj) -> Option<&'a Value>
    ensures { option_copied result ≡ element_in at o.now }
{
    match o {
        Obj::Array { cells, .. } => cells.get(at as usize),
        Obj::Boxed { .. } => None,
        Obj::Instance { .. } => None,
        Obj::Str(_) => None,
        Obj::TypeOf(_) => None,
        Obj::Member(_, _) => None,
    }
}

/// Puts a value into a box. False for an object that is no box: then nothing is changed.
fn put_boxed(alloc: Global, v: &Value, o: &mut Obj) -> Result<bool, NoMemory>
    ensures { IfOk result (λ done. MatchBool done (put_boxed v.now o.old ≡ Some o.new) ((put_boxed v.now o.old ≡ None) × (o.new ≡ o.old))) }
{
    match o {
        Obj::Boxed { value, .. } => {
            let v = v.copy(alloc)?;
            discard(mem::replace(value, v));
            Ok(true)
        }
        Obj::Instance { .. } => Ok(false),
        Obj::Array { .. } => Ok(false),
        Obj::Str(_) => Ok(false),
        Obj::TypeOf(_) => Ok(false),
        Obj::Member(_, _) => Ok(false),
    }
}

/// Puts a value into an element of an array. False where there is no such element: then nothing is changed.
fn put_element(alloc: Global, at: u32, v: &Value, o: &mut Obj) -> Result<bool, NoMemory>
    ensures { IfOk result (λ done. MatchBool done (put_element at v.now o.old ≡ Some o.new) ((put_element at v.now o.old ≡ None) × (o.new ≡ o.old))) }
{
    match o {
        Obj::Array { cells, .. } => set_if(alloc, cells, at as usize, v),
        Obj::Boxed { .. } => Ok(false),
        Obj::Instance { .. } => Ok(false),
        Obj::Str(_) => Ok(false),
        Obj::TypeOf(_) => Ok(false),
        Obj::Member(_, _) => Ok(false),
    }
}

/// Puts a value into a field of an instance. False where there is no such field: then nothing is changed.
fn put_field<Q: Answers>(
    alloc: Global,
    q: &Q,
    field: FieldId,
    v: &Value,
    o: &mut Obj,
) -> Result<bool, NoMemory>
    ensures { IfOk result (λ done. MatchBool done (put_cell_in (Q.queries q.now) (cell.Field field.0) v.now o.old ≡ Some o.new) ((put_cell_in (Q.queries q.now) (cell.Field field.0) v.now o.old ≡ None) × (o.new ≡ o.old))) }
{
    match o {
        Obj::Instance { of, cells } => with_cell(alloc, q, of, cells, Cell::Field(field.0), v),
        Obj::Array { .. } => Ok(false),
        Obj::Boxed { .. } => Ok(false),
        Obj::Str(_) => Ok(false),
        Obj::TypeOf(_) => Ok(false),
        Obj::Member(_, _) => Ok(false),
    }
}

/// Puts a value into a part of an object. False where the object has no such part: then nothing is changed.
fn put_part<Q: Answers>(
    alloc: Global,
    q: &Q,
    part: Part,
    v: &Value,
    o: &mut Obj,
) -> Result<bool, NoMemory>
    ensures { IfOk result (λ done. MatchBool done (put_part (Q.queries q.now) part v.now o.old ≡ Some o.new) ((put_part (Q.queries q.now) part v.now o.old ≡ None) × (o.new ≡ o.old))) }
{
    match part {
        Part::Boxed => put_boxed(alloc, v, o),
        Part::Element(at) => put_element(alloc, at, v, o),
        Part::Field(field) => put_field(alloc, q, field, v, o),
    }
}

/// Puts a value into a part of the object with a number. False where there is no such part: then nothing is changed.
pub(crate) fn put_in_object<Q: Answers>(
    alloc: Global,
    q: &Q,
    heap: &mut Heap,
    at: u32,
    part: Part,
    v: &Value,
) -> Result<bool, NoMemory>
    ensures { IfOk result (λ done. MatchBool done (new_heap (Q.queries q.now) part v.now heap.old at ≡ Some heap.new) ((new_heap (Q.queries q.now) part v.now heap.old at ≡ None) × (heap.new ≡ heap.old))) }
{
    if heap.get(at).is_none() {
        return Ok(false);
    }
    let mut o = heap.replace(at, Obj::Str(Seq::new(alloc)));
    let done = put_part(alloc, q, part, v, &mut o);
    heap.set(at, o);
    done
}
