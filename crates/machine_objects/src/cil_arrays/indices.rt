//! Lengths and indices.

ghost use Rattle.std.specs.Prelude.{◌≡◌};
ghost use Rattle.rules.specs.step_rules.Arrays.{count_of, place_in};
ghost use Rattle.machine_objects.specs.cil_arrays.Counts.{natural, place_by};
ghost use Rattle.machine_objects.specs.cil_arrays.Elements.{index_found};
ghost use Rattle.machine_objects.specs.cil_arrays.Vectors.{vector_by};

use crate::cil_arrays::vectors::Elements;
use il_base::cil_values::Value;
use il_base::core_table::CoreName;
use machine_numbers::cil_operands::Refusal;

/// A length or an index: an int32 or a native integer.
#[tactic(auto, unfolding(rules::specs::step_rules::Arrays::count_of))]
pub(crate) fn count_of(v: &Value) -> Option<i64>
    ensures { result ≡ count_of v.now }
{
    match v {
        Value::I4(n) => Some(*n as i64),
        Value::Native(n) => Some(*n),
        Value::I8(_) => None,
        Value::Null => None,
        Value::Object(_) => None,
        Value::Pointer(_) => None,
        Value::Struct(_, _) => None,
        Value::Handle(_) => None,
        Value::FieldHandle(_) => None,
    }
}

/// None for a negative number.
pub(crate) fn natural(n: i64) -> Option<usize>
    ensures { result ≡ natural n }
{
    if n < 0 { None } else { Some(n as usize) }
}

fn place_by(cells: &[Value], n: Option<usize>) -> Option<usize>
    ensures { result ≡ place_by cells.now n }
{
    let Some(k) = n else {
        return None;
    };
    match cells.get(k) {
        Some(_) => Some(k),
        None => None,
    }
}

/// An index within an array.
#[tactic(auto, using(crate::proofs::lemmas::cil_arrays::Naturals::placed_by))]
fn place_in(cells: &[Value], n: i64) -> Option<usize>
    ensures { result ≡ place_in cells.now n }
{
    place_by(cells, natural(n))
}

/// An index within an array, as a value gives it.
#[tactic(auto, unfolding(crate::specs::cil_arrays::Elements::index_found))]
pub(crate) fn index_in(v: &Elements, index: &Value) -> Result<usize, Refusal>
    ensures { result ≡ index_found (vector_by v.now) index.now }
{
    let Some(n) = count_of(index) else {
        return Err(Refusal::Stuck);
    };
    match place_in(v.cells.as_slice(), n) {
        Some(k) => Ok(k),
        None => Err(Refusal::Raises(CoreName::IndexOutOfRangeException)),
    }
}
