//! Addresses of elements (III.4.9).

ghost use Rattle.std.specs.Prelude.{◌≡◌, drop, IfOk};
ghost use Rattle.il_base.specs.declared.cil_values.value.Value.TheVariants as value;
ghost use Rattle.il_base.specs.declared.cil_values.resolved.Instruction.{Instruction};
ghost use Rattle.rules.specs.step_rules.Queries.{Queries};
ghost use Rattle.rules.specs.step_rules.Words.{Here};
ghost use Rattle.rules.specs.step_rules.Arrays.{is_readonly, element_path, address_element};
ghost use Rattle.machine_numbers.specs.cil_operands.Outcomes.{outcome_of};
ghost use Rattle.machine_objects.specs.cil_arrays.Elements.{address_at, address_found};
ghost use Rattle.machine_objects.specs.cil_arrays.Vectors.{vector_by};

use crate::cil_arrays::indices::index_in;
use crate::cil_arrays::vectors::{Elements, element_type, vector_of};
use il_base::cil_values::{Path, Prefix, Root, State, Value};
use il_base::core_table::CoreName;
use il_base::world_model::TypeExpr;
use il_base::{NoMemory, Seq};
use machine_numbers::cil_operands::{Refusal, next_operand, operand};
use std::alloc::Global;

fn is_readonly(prefix: &Prefix) -> bool
    ensures { result ≡ is_readonly prefix.now }
{
    match prefix {
        Prefix::Readonly => true,
        Prefix::None => false,
        Prefix::Constrained(_) => false,
    }
}

/// A pointer to an element. One with an index beyond 4294967295 is answered as want of memory.
fn element_pointer(alloc: Global, v: &Elements, k: usize) -> Result<Value, NoMemory>
    ensures { IfOk result (λ p. p ≡ value.Pointer (element_path (vector_by v.now) k)) }
{
    let Ok(index) = u32::try_from(k) else {
        return Err(NoMemory);
    };
    let of = element_type(alloc, v)?;
    let path = Path {
        root: Root::Element(v.place, index),
        steps: Seq::new(alloc),
        of,
    };
    Value::pointer(alloc, path)
}

/// The address of an element that is there. Elements are of exactly the type, but after `readonly.`.
fn address_at(
    alloc: Global,
    st: &State,
    ty: &TypeExpr,
    v: &Elements,
    k: usize,
) -> Result<Result<Value, Refusal>, NoMemory>
    ensures { IfOk result (λ out. out ≡ address_at st.now ty.now (vector_by v.now) k) }
{
    let of = element_type(alloc, v)?;
    if of.is_same(ty) || is_readonly(&st.top.prefix) {
        let pointer = element_pointer(alloc, v, k)?;
        Ok(Ok(pointer))
    } else {
        Ok(Err(Refusal::Raises(CoreName::ArrayTypeMismatchException)))
    }
}

/// The address of an element of an array.
#[tactic(auto, unfolding(crate::specs::cil_arrays::Elements::address_found))]
fn address_found(
    alloc: Global,
    st: &State,
    ty: &TypeExpr,
    v: &Elements,
    index: &Value,
) -> Result<Result<Value, Refusal>, NoMemory>
    ensures { IfOk result (λ out. out ≡ address_found st.now ty.now index.now (vector_by v.now)) }
{
    match index_in(v, index) {
        Ok(k) => address_at(alloc, st, ty, v, k),
        Err(why) => Ok(Err(why)),
    }
}

/// What `ldelema` (III.4.9) of a closed type gives.
pub(crate) fn address_element(
    alloc: Global,
    st: &State,
    ty: &TypeExpr,
) -> Result<Result<Value, Refusal>, NoMemory>
    ensures { IfOk result (λ out. (q : Queries) (here : Here) (i : Instruction) → outcome_of q here i st.now (drop 2 st.now.top.stack) out ≡ address_element q here i st.now ty.now) }
{
    let Some((index, below)) = operand(st) else {
        return Ok(Err(Refusal::Stuck));
    };
    let Some((r, _)) = next_operand(below) else {
        return Ok(Err(Refusal::Stuck));
    };
    match vector_of(st, r) {
        Ok(v) => address_found(alloc, st, ty, &v, index),
        Err(why) => Ok(Err(why)),
    }
}
