//! Values within structs.

ghost use Rattle.std.specs.Prelude.{◌≡◌, slice_get, slice_set, drop, IfOk};
ghost use Rattle.std.specs.Option.{option_copied, option_map, option_and_then};
ghost use Rattle.rules.specs.step_rules.Stores.{Parts, parts_of};
ghost use Rattle.rules.specs.step_rules.Places.{value_in, with_struct, put_in};

use il_base::cil_values::Value;
use il_base::{NoMemory, Seq};
use std::alloc::Global;

/// A cell of a struct, from 0. None for a value that is no struct, and beyond its cells.
#[tactic(auto, unfolding(rules::specs::step_rules::Stores::parts_of))]
pub fn part_of<'a>(v: &'a Value, k: usize) -> Option<&'a Value>
    ensures { option_copied result ≡ option_and_then (λ (p : Parts). slice_get p.cells k) (parts_of v.now) }
{
    match v {
        Value::Struct(_, cells) => cells.get().get(k),
        Value::Null => None,
        Value::I4(_) => None,
        Value::I8(_) => None,
        Value::Native(_) => None,
        Value::Object(_) => None,
        Value::Pointer(_) => None,
        Value::Handle(_) => None,
        Value::FieldHandle(_) => None,
    }
}

/// The value at the end of a way into structs: the number of a cell at each step, from 0.
pub fn value_in<'a>(steps: &[u32], v: &'a Value) -> Option<&'a Value>
    ensures { option_copied result ≡ value_in steps.now v.now }
{
    let mut at = v;
    for k in steps {
        let Some(inner) = part_of(at, *k as usize) else {
            return None;
        };
        at = inner;
    }
    Some(at)
}

/// Puts a value into a slot, if there is such a slot.
pub(crate) fn put(slots: &mut Seq<Value>, at: usize, v: Value)
    ensures { slots.new ≡ slice_set slots.old at v }
{
    if at < slots.len() {
        slots.set(at, v);
    } else {
        discard(v);
    }
}

/// Drops a value.
pub(crate) fn discard<T: Drop>(_v: T) {}

/// A struct with another value in one of its cells. None for a value that is no struct.
#[tactic(auto, unfolding(rules::specs::step_rules::Stores::parts_of))]
fn with_struct(alloc: Global, old: &Value, k: usize, v: &Value) -> Result<Option<Value>, NoMemory>
    ensures { IfOk result (λ made. made ≡ option_map (λ (p : Parts). with_struct p k v.now) (parts_of old.now)) }
{
    match old {
        Value::Struct(of, cells) => {
            let of = of.get().copy(alloc)?;
            let mut cells = Value::copy_all(alloc, cells.get().as_slice())?;
            let v = v.copy(alloc)?;
            put(&mut cells, k, v);
            let made = Value::structure(alloc, of, cells)?;
            Ok(Some(made))
        }
        Value::Null => Ok(None),
        Value::I4(_) => Ok(None),
        Value::I8(_) => Ok(None),
        Value::Native(_) => Ok(None),
        Value::Object(_) => Ok(None),
        Value::Pointer(_) => Ok(None),
        Value::Handle(_) => Ok(None),
        Value::FieldHandle(_) => Ok(None),
    }
}

/// The same value with another at the end of the rest of a way.
fn put_from(
    alloc: Global,
    steps: &[u32],
    from: usize,
    new: &Value,
    old: &Value,
) -> Result<Option<Value>, NoMemory>
    ensures { IfOk result (λ v. v ≡ put_in (drop from steps.now) new.now old.now) }
{
    if from >= steps.len() {
        let new = new.copy(alloc)?;
        return Ok(Some(new));
    }
    let k = steps[from] as usize;
    let Some(inner) = part_of(old, k) else {
        return Ok(None);
    };
    let Some(v) = put_from(alloc, steps, from + 1, new, inner)? else {
        return Ok(None);
    };
    let made = with_struct(alloc, old, k, &v);
    discard(v);
    made
}

/// The same value with another at the end of the way. None where the way leads to no value.
pub fn put_in(
    alloc: Global,
    steps: &[u32],
    new: &Value,
    old: &Value,
) -> Result<Option<Value>, NoMemory>
    ensures { IfOk result (λ v. v ≡ put_in steps.now new.now old.now) }
{
    let made = put_from(alloc, steps, 0, new, old)?;
    Ok(made)
}
