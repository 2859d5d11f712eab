//! Members of arrays, and RuntimeHelpers.InitializeArray.

ghost use Rattle.std.specs.Prelude.{◌≡◌, ◌<◌, List, [], length, IfOk};
ghost use Rattle.il_base.specs.declared.cil_values.value.Value.{Value};
ghost use Rattle.rules.specs.step_rules.Queries.{Queries};
ghost use Rattle.rules.specs.step_rules.Words.{given, object_at};
ghost use Rattle.rules.specs.step_rules.CoreWords.{Gives};
ghost use Rattle.rules.specs.step_rules.CoreArrays.{array_length_form, fill_array_form, fill_from, fill_object, fill_with};
ghost use Rattle.cil_core.specs.cil_members.Outs.{gives_by};
ghost use Rattle.cil_core.specs.cil_console_members.Fills.{code_in, fill_by_code};

use crate::cil_console_members::elements::{elements_of, has_bytes};
use crate::cil_members::{CoreOut, gives_int, int_of, raised, stopped_member, stuck_member};
use il_base::NoMemory;
use il_base::cil_values::{First, Obj, Shape, State, Value};
use il_base::core_table::CoreName;
use il_base::world_model::{Known, TypeExpr};
use machine_words::cil_queries::Answers;
use std::alloc::Global;

/// Array.get_Length(). An array of more than 2147483647 elements is answered as want of memory.
#[tactic(auto, unfolding(rules::specs::step_rules::CoreArrays::array_length_form))]
pub fn array_length(args: &[Value], st: &State) -> Result<CoreOut, NoMemory>
    ensures { IfOk result (λ out. (q : Queries) (give : Gives) → gives_by out st.now [] give ≡ array_length_form q args.now st.now give) }
{
    let [this] = args else {
        return Ok(stuck_member(st));
    };
    let Value::Object(at) = this else {
        return Ok(stuck_member(st));
    };
    let Some(o) = st.heap.get(*at) else {
        return Ok(stuck_member(st));
    };
    let Obj::Array { of: _, cells } = o else {
        return Ok(stuck_member(st));
    };
    let count = int_of(cells.len())?;
    Ok(gives_int(st, count))
}

fn code_in(shape: &Shape) -> Option<u8>
    ensures { result ≡ code_in shape.now }
{
    match shape {
        Shape::Integer(code) => Some(*code),
        Shape::Reference => None,
        Shape::Pointer => None,
        Shape::TypeHandle => None,
        Shape::FieldHandle => None,
        Shape::Structure(_) => None,
        Shape::NoValue => None,
    }
}

/// The element type of the integers that places of a type hold (II.23.1.16). None where they hold no integer.
fn code_of<Q: Answers>(alloc: Global, q: &Q, ty: &TypeExpr) -> Result<Option<u8>, NoMemory>
    ensures { IfOk result (λ code. code ≡ code_in ((Q.queries q.now).shape ty.now)) }
{
    let shape = q.shape(alloc, ty)?;
    let code = code_in(&shape);
    drop(shape);
    Ok(code)
}

/// Puts elements from these bytes into an array of so many. Where there are too few bytes, ArgumentException is raised.
fn fill_with<Q: Answers>(
    alloc: Global,
    q: &Q,
    at: u32,
    of: &TypeExpr,
    count: usize,
    code: u8,
    bytes: &[u8],
    st: &mut State,
) -> Result<CoreOut, NoMemory>
    requires { at < length st.old.heap }
    ensures { IfOk result (λ out. (give : Gives) (cells : List Value) → count ≡ length cells → gives_by out st.new [] give ≡ fill_with (Q.queries q.now) st.old give at of.now cells code bytes.now) }
{
    if !has_bytes(code, count, bytes) {
        return raised(alloc, q, CoreName::ArgumentException, st);
    }
    let of = of.copy(alloc)?;
    let cells = elements_of(alloc, code, count, bytes)?;
    st.heap.set(at, Obj::Array { of, cells });
    Ok(CoreOut::Gave(None))
}

/// The same with what a field has at first. ArgumentException is raised where it has no bytes; bytes that have no meaning end
/// the run.
fn fill_from<Q: Answers>(
    alloc: Global,
    q: &Q,
    at: u32,
    of: &TypeExpr,
    count: usize,
    code: u8,
    first: &First,
    st: &mut State,
) -> Result<CoreOut, NoMemory>
    requires { at < length st.old.heap }
    ensures { IfOk result (λ out. (give : Gives) (cells : List Value) → count ≡ length cells → gives_by out st.new [] give ≡ fill_from (Q.queries q.now) st.old give at of.now cells code first.now) }
{
    match first {
        First::Bytes(Known::Good(bytes)) => fill_with(
            alloc,
            q,
            at,
            of,
            count,
            code,
            bytes.as_slice(),
            st,
        ),
        First::Bytes(Known::Bad(_)) => Ok(stopped_member(st)),
        First::Blank => raised(alloc, q, CoreName::ArgumentException, st),
        First::EmptyText => raised(alloc, q, CoreName::ArgumentException, st),
    }
}

/// The same with a field. ArgumentException is raised where the array is of no integers.
fn fill_by<Q: Answers>(
    alloc: Global,
    q: &Q,
    at: u32,
    of: &TypeExpr,
    count: usize,
    field: u32,
    st: &mut State,
) -> Result<CoreOut, NoMemory>
    requires { at < length st.old.heap }
    ensures { IfOk result (λ out. (give : Gives) (cells : List Value) → count ≡ length cells → gives_by out st.new [] give ≡ fill_by_code (Q.queries q.now) st.old give at of.now cells field (code_in ((Q.queries q.now).shape of.now))) }
{
    let Some(code) = code_of(alloc, q, of)? else {
        return raised(alloc, q, CoreName::ArgumentException, st);
    };
    match q.field(field) {
        None => Ok(stopped_member(st)),
        Some(d) => fill_from(alloc, q, at, of, count, code, &d.first, st),
    }
}

/// The same with the object with a number, which is to be an array.
fn fill_object<Q: Answers>(
    alloc: Global,
    q: &Q,
    at: u32,
    field: u32,
    st: &mut State,
) -> Result<CoreOut, NoMemory>
    ensures { IfOk result (λ out. (give : Gives) → gives_by out st.new [] give ≡ given (object_at st.old at) st.old (fill_object (Q.queries q.now) st.old give at field)) }
{
    let Some(o) = st.heap.get(at) else {
        return Ok(stuck_member(st));
    };
    let Obj::Array { of, cells } = o else {
        return Ok(stuck_member(st));
    };
    let count = cells.len();
    let of = of.copy(alloc)?;
    let out = fill_by(alloc, q, at, &of, count, field, st);
    drop(of);
    out
}

/// RuntimeHelpers.InitializeArray(Array, RuntimeFieldHandle): elements of integers, from the bytes of a field.
#[tactic(auto, unfolding(rules::specs::step_rules::CoreArrays::fill_array_form))]
pub fn fill_array<Q: Answers>(
    alloc: Global,
    q: &Q,
    args: &[Value],
    st: &mut State,
) -> Result<CoreOut, NoMemory>
    ensures { IfOk result (λ out. (give : Gives) → gives_by out st.new [] give ≡ fill_array_form (Q.queries q.now) args.now st.old give) }
{
    let [array, handle] = args else {
        return Ok(stuck_member(st));
    };
    if let Value::Null = array {
        return raised(alloc, q, CoreName::NullReferenceException, st);
    }
    let Value::Object(at) = array else {
        return Ok(stuck_member(st));
    };
    let Value::FieldHandle(field) = handle else {
        return raised(alloc, q, CoreName::ArgumentException, st);
    };
    fill_object(alloc, q, *at, field.0, st)
}
