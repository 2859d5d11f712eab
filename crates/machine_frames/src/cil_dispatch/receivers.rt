//! `this` as the method that was found takes it.

ghost use Rattle.std.specs.Prelude.{◌≡◌, IfOk};
ghost use Rattle.std.specs.Option.{option_copied};
ghost use Rattle.rules.specs.step_rules.Dispatch.{box_pointer, path_into_box, this_for};
ghost use Rattle.il_base.specs.declared.cil_values.value.Value.TheVariants.{Object};
ghost use Rattle.machine_words.specs.cil_closing.Callees.{callee_by};

use il_base::cil_values::{Obj, Path, Root, State, Value};
use il_base::world_model::TypeExpr;
use il_base::{NoMemory, Seq};
use machine_words::cil_closing::Callee;
use machine_words::cil_queries::Answers;
use machine_words::cil_stores::is_value;
use std::alloc::Global;

/// A pointer to the value in a box, by the box's number and the type of the value.
pub fn path_into_box(alloc: Global, a: u32, ty: TypeExpr) -> Path
    ensures { result ≡ path_into_box a ty }
{
    Path {
        root: Root::Boxed(a),
        steps: Seq::new(alloc),
        of: ty,
    }
}

/// The pointer into a box. None for an object that is none.
fn box_pointer(alloc: Global, a: u32, o: Option<&Obj>) -> Result<Option<Value>, NoMemory>
    ensures { IfOk result (λ pointer. pointer ≡ box_pointer a (option_copied o.entry)) }
{
    match o {
        None => Ok(None),
        Some(Obj::Boxed { of, value: _ }) => {
            let of = of.copy(alloc)?;
            let pointer = Value::pointer(alloc, path_into_box(alloc, a, of))?;
            Ok(Some(pointer))
        }
        Some(Obj::Instance { of: _, cells: _ }) => Ok(None),
        Some(Obj::Array { of: _, cells: _ }) => Ok(None),
        Some(Obj::Str(_)) => Ok(None),
        Some(Obj::TypeOf(_)) => Ok(None),
        Some(Obj::Member(_, _)) => Ok(None),
    }
}

/// An object goes to a method of a value type as the pointer into its box.
#[tactic(auto, unfolding(rules::specs::step_rules::Dispatch::this_for))]
fn object_for<Q: Answers>(
    alloc: Global,
    q: &Q,
    st: &State,
    c: &Callee,
    a: u32,
) -> Result<Option<Value>, NoMemory>
    ensures { IfOk result (λ this. this ≡ this_for (Q.queries q.now) st.now (callee_by c.now) (Object a)) }
{
    if !is_value(alloc, q, &c.called.owner)? {
        return Ok(Some(Value::Object(a)));
    }
    box_pointer(alloc, a, st.heap.get(a))
}

/// `this` as a method takes it: an object that goes to a method of a value type goes as the pointer into its box. None where it
/// is no box.
#[tactic(auto, unfolding(rules::specs::step_rules::Dispatch::this_for))]
pub fn this_for<Q: Answers>(
    alloc: Global,
    q: &Q,
    st: &State,
    c: &Callee,
    v: Value,
) -> Result<Option<Value>, NoMemory>
    ensures { IfOk result (λ this. this ≡ this_for (Q.queries q.now) st.now (callee_by c.now) v) }
{
    match v {
        Value::Object(a) => object_for(alloc, q, st, c, a),
        Value::Null => Ok(Some(Value::Null)),
        Value::I4(n) => Ok(Some(Value::I4(n))),
        Value::I8(n) => Ok(Some(Value::I8(n))),
        Value::Native(n) => Ok(Some(Value::Native(n))),
        Value::Pointer(p) => Ok(Some(Value::Pointer(p))),
        Value::Struct(of, cells) => Ok(Some(Value::Struct(of, cells))),
        Value::Handle(of) => Ok(Some(Value::Handle(of))),
        Value::FieldHandle(f) => Ok(Some(Value::FieldHandle(f))),
    }
}
