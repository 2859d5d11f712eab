//! How the objects of types come.

ghost use Rattle.std.specs.Prelude.{◌≡◌, [], IfOk};
ghost use Rattle.std.specs.Option.{option_and_then};
ghost use Rattle.il_base.specs.declared.cil_values.value.Value.TheVariants.{Object};
ghost use Rattle.rules.specs.step_rules.Queries.{Queries};
ghost use Rattle.rules.specs.step_rules.Frames.{definition_of};
ghost use Rattle.rules.specs.step_rules.CoreWords.{Gives};
ghost use Rattle.rules.specs.step_rules.CoreTypes.{gives_encloser, gives_type, handle_type, object_type, object_type_form, type_from_handle_form};
ghost use Rattle.cil_core.specs.cil_members.Outs.{gives_by};

use crate::cil_members::{CoreOut, gives_value, stuck_member};
use il_base::cil_values::{State, Value};
use il_base::world_model::TypeExpr;
use il_base::{NoMemory, TypeId};
use machine_frames::cil_frames::definition_of;
use machine_words::cil_objects::{type_of, typed};
use machine_words::cil_queries::Answers;
use std::alloc::Global;

/// The member gives the object of a type.
pub(crate) fn gives_type(alloc: Global, ty: &TypeExpr, st: &mut State) -> Result<CoreOut, NoMemory>
    ensures { IfOk result (λ out. (give : Gives) → gives_by out st.new [] give ≡ gives_type ty.now st.old give) }
{
    let at = typed(alloc, st, ty)?;
    Ok(gives_value(st, Value::Object(at)))
}

/// The object of a handle's type; null for the zero handle.
fn handle_type(alloc: Global, v: &Value, st: &mut State) -> Result<CoreOut, NoMemory>
    ensures { IfOk result (λ out. (give : Gives) → gives_by out st.new [] give ≡ handle_type st.old give v.now) }
{
    match v {
        Value::Handle(ty) => gives_type(alloc, ty.get(), st),
        Value::Null => Ok(gives_value(st, Value::Null)),
        Value::I4(_) => Ok(gives_value(st, Value::Null)),
        Value::I8(_) => Ok(gives_value(st, Value::Null)),
        Value::Native(_) => Ok(gives_value(st, Value::Null)),
        Value::Object(_) => Ok(gives_value(st, Value::Null)),
        Value::Pointer(_) => Ok(gives_value(st, Value::Null)),
        Value::Struct(_, _) => Ok(gives_value(st, Value::Null)),
        Value::FieldHandle(_) => Ok(gives_value(st, Value::Null)),
    }
}

/// Type.GetTypeFromHandle(RuntimeTypeHandle).
#[tactic(auto, unfolding(rules::specs::step_rules::CoreTypes::type_from_handle_form))]
pub fn type_from_handle(alloc: Global, args: &[Value], st: &mut State) -> Result<CoreOut, NoMemory>
    ensures { IfOk result (λ out. (q : Queries) (give : Gives) → gives_by out st.new [] give ≡ type_from_handle_form q args.now st.old give) }
{
    let [v] = args else {
        return Ok(stuck_member(st));
    };
    handle_type(alloc, v, st)
}

/// The object of the type of the object with a number.
fn type_at<Q: Answers>(alloc: Global, q: &Q, at: u32, st: &mut State) -> Result<CoreOut, NoMemory>
    ensures { IfOk result (λ out. (give : Gives) → gives_by out st.new [] give ≡ object_type (Q.queries q.now) st.old give (Object at)) }
{
    let Some(o) = st.heap.get(at) else {
        return Ok(stuck_member(st));
    };
    let ty = type_of(alloc, q, o)?;
    let out = gives_type(alloc, &ty, st);
    drop(ty);
    out
}

/// Object.GetType().
#[tactic(auto, unfolding(rules::specs::step_rules::CoreTypes::object_type_form))]
pub fn object_type<Q: Answers>(
    alloc: Global,
    q: &Q,
    args: &[Value],
    st: &mut State,
) -> Result<CoreOut, NoMemory>
    ensures { IfOk result (λ out. (give : Gives) → gives_by out st.new [] give ≡ object_type_form (Q.queries q.now) args.now st.old give) }
{
    match args {
        [Value::Object(at)] => type_at(alloc, q, *at, st),
        _ => Ok(stuck_member(st)),
    }
}

/// The object of the definition that a type is nested in; null where there is none.
pub(crate) fn gives_encloser(
    alloc: Global,
    around: Option<u32>,
    st: &mut State,
) -> Result<CoreOut, NoMemory>
    ensures { IfOk result (λ out. (give : Gives) → gives_by out st.new [] give ≡ gives_encloser st.old give around) }
{
    match around {
        None => Ok(gives_value(st, Value::Null)),
        Some(id) => {
            let ty = TypeExpr::Def(TypeId(id));
            let out = gives_type(alloc, &ty, st);
            drop(ty);
            out
        }
    }
}

/// The definition that a type's definition is nested in (II.22.32). None for an array, and for a type that isn't nested.
pub(crate) fn encloser_of<Q: Answers>(q: &Q, ty: &TypeExpr) -> Option<u32>
    ensures { result ≡ option_and_then (Q.queries q.now).encloser (definition_of ty.now) }
{
    match definition_of(ty) {
        None => None,
        Some(id) => q.encloser(id),
    }
}
