//! First values of static fields that have bytes (II.16.3.2).

ghost use Rattle.std.specs.Prelude.{◌≡◌, ◌≤◌, IfOk};
ghost use Rattle.rules.specs.step_rules.Integers.{width_of};
ghost use Rattle.rules.specs.step_rules.Fields.{number_in, value_of_bytes};

use byteorder::{ByteOrder, LittleEndian};
use il_base::NoMemory;
use il_base::cil_values::{Shape, Value};
use il_base::world_model::TypeExpr;
use machine_numbers::cil_conversions::number_of_bits;
use machine_words::cil_queries::Answers;
use machine_words::cil_stores::{width_of, zero_of};
use std::alloc::Global;

/// How many bytes a number of the type has, from 1 to 8.
#[tactic(auto, using(crate::proofs::lemmas::cil_fields::Widths::width_low, crate::proofs::lemmas::cil_fields::Widths::width_high))]
fn width_in(code: u8) -> usize
    ensures value { result ≡ width_of code }
    ensures low { 1 ≤ result }
    ensures high { result ≤ 8 }
{
    width_of(code) as usize
}

/// The number of the first bytes, the lowest first, as a value of the type. None for too few.
fn number_in(code: u8, bytes: &[u8]) -> Option<Value>
    ensures { result ≡ number_in code bytes.now }
{
    let width = width_in(code);
    if bytes.len() < width {
        return None;
    }
    let n = LittleEndian::read_uint(bytes, width);
    Some(number_of_bits(code, n))
}

fn shaped<Q: Answers>(
    alloc: Global,
    q: &Q,
    ty: &TypeExpr,
    bytes: &[u8],
    shape: &Shape,
) -> Result<Option<Value>, NoMemory>
    ensures { IfOk result (λ v. v ≡ value_of_bytes (Q.queries q.now) ty.now bytes.now shape.now) }
{
    match shape {
        Shape::Integer(code) => Ok(number_in(*code, bytes)),
        Shape::Reference => zero_of(alloc, q, ty),
        Shape::Pointer => zero_of(alloc, q, ty),
        Shape::TypeHandle => zero_of(alloc, q, ty),
        Shape::FieldHandle => zero_of(alloc, q, ty),
        Shape::Structure(_) => zero_of(alloc, q, ty),
        Shape::NoValue => zero_of(alloc, q, ty),
    }
}

/// What the bytes are as a value of a closed type: a number, or for any other type its zero.
pub(crate) fn value_of_bytes<Q: Answers>(
    alloc: Global,
    q: &Q,
    ty: &TypeExpr,
    bytes: &[u8],
) -> Result<Option<Value>, NoMemory>
    ensures { IfOk result (λ v. v ≡ value_of_bytes (Q.queries q.now) ty.now bytes.now ((Q.queries q.now).shape ty.now)) }
{
    let shape = q.shape(alloc, ty)?;
    let v = shaped(alloc, q, ty, bytes, &shape)?;
    Ok(v)
}
