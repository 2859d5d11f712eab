//! Arrays of the heap.

ghost use Rattle.std.specs.Prelude.{◌≡◌, Some, slice_get, IfOk, IfSome, MatchResult};
ghost use Rattle.std.specs.Option.{option_map, option_and_then};
ghost use Rattle.rules.specs.step_rules.Queries.{Queries};
ghost use Rattle.rules.specs.step_rules.Next.{Next};
ghost use Rattle.rules.specs.step_rules.Words.{object_at};
ghost use Rattle.rules.specs.step_rules.Arrays.{Vector, vector_in, vector_of, element_type};
ghost use Rattle.machine_numbers.specs.cil_operands.Outcomes.{refused};
ghost use Rattle.machine_objects.specs.cil_arrays.Vectors.{vector_by};

use il_base::cil_values::{Heap, Obj, State, Value};
use il_base::core_table::CoreName;
use il_base::world_model::TypeExpr;
use il_base::{NoMemory, Seq};
use machine_numbers::cil_operands::Refusal;
use machine_words::cil_closing::without_modifiers;
use std::alloc::Global;

/// An array, by its place in the heap, the type of its elements and these.
#[derive(Clone, Copy)]
pub(crate) struct Elements<'a> {
    pub place: u32,
    pub of: &'a TypeExpr,
    pub cells: &'a Seq<Value>,
}

/// The array with a number. None for another object.
fn array_at<'a>(heap: &'a Heap, place: u32) -> Option<Elements<'a>>
    ensures found { option_map vector_by result ≡ option_and_then (vector_in place) (slice_get heap.now place) }
    ensures placed { IfSome result (λ e. e.place ≡ place) }
{
    let Some(o) = heap.get(place) else {
        return None;
    };
    match o {
        Obj::Array { of, cells } => Some(Elements { place, of, cells }),
        Obj::Instance { .. } => None,
        Obj::Boxed { .. } => None,
        Obj::Str(_) => None,
        Obj::TypeOf(_) => None,
        Obj::Member(_, _) => None,
    }
}

/// The array that a value names.
#[tactic(auto, unfolding(rules::specs::step_rules::Arrays::vector_of, machine_numbers::specs::cil_operands::Outcomes::refused))]
pub(crate) fn vector_of<'a>(st: &'a State, r: &Value) -> Result<Elements<'a>, Refusal>
    ensures { MatchResult result (λ e. ((q : Queries) (f : Vector → Next) → vector_of q r.now st.now f ≡ f (vector_by e)) × (option_and_then (vector_in e.place) (object_at st.now e.place) ≡ Some (vector_by e))) (λ why. (q : Queries) (f : Vector → Next) → vector_of q r.now st.now f ≡ refused q st.now why) }
{
    match r {
        Value::Null => Err(Refusal::Raises(CoreName::NullReferenceException)),
        Value::Object(a) => match array_at(&st.heap, *a) {
            Some(e) => Ok(e),
            None => Err(Refusal::Stuck),
        },
        Value::I4(_) => Err(Refusal::Stuck),
        Value::I8(_) => Err(Refusal::Stuck),
        Value::Native(_) => Err(Refusal::Stuck),
        Value::Pointer(_) => Err(Refusal::Stuck),
        Value::Struct(_, _) => Err(Refusal::Stuck),
        Value::Handle(_) => Err(Refusal::Stuck),
        Value::FieldHandle(_) => Err(Refusal::Stuck),
    }
}

/// The type of the elements without the modifiers around it.
pub(crate) fn element_type(alloc: Global, v: &Elements) -> Result<TypeExpr, NoMemory>
    ensures { IfOk result (λ ty. ty ≡ element_type (vector_by v.now)) }
{
    let of = v.of.copy(alloc)?;
    Ok(without_modifiers(of))
}
