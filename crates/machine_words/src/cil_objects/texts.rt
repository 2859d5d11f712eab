//! Strings, by their UTF-16 units.

ghost use Rattle.std.specs.Prelude.{◌≡◌, slice_get, find, IfOk};
ghost use Rattle.std.specs.Option.{option_copied, option_and_then};
ghost use Rattle.rules.specs.step_rules.Objects.{units_in, units_of, bytes_of_units, made_text, holds_text, interned};
ghost use Rattle.machine_words.specs.cil_objects.Made.{GoesOn, new_text};

use il_base::cil_values::{Heap, Obj, State, Value};
use il_base::{NoMemory, Seq, Text, Units};
use std::alloc::Global;

/// The most units that a string has.
const TEXT_LIMIT: usize = 16_777_216;

/// The units of a string. None for another object.
fn units_in(o: &Obj) -> Option<&Units>
    ensures { option_copied result ≡ units_in o.now }
{
    match o {
        Obj::Str(units) => Some(units),
        Obj::Instance { .. } => None,
        Obj::Boxed { .. } => None,
        Obj::Array { .. } => None,
        Obj::TypeOf(_) => None,
        Obj::Member(_, _) => None,
    }
}

fn units_at(heap: &Heap, at: u32) -> Option<&Units>
    ensures { option_copied result ≡ option_and_then units_in (slice_get heap.now at) }
{
    match heap.get(at) {
        Some(o) => units_in(o),
        None => None,
    }
}

/// The units of the string that a value names. None for null and for what is no string.
pub fn units_of<'a>(st: &'a State, v: &Value) -> Option<&'a Units>
    ensures { option_copied result ≡ units_of st.now v.now }
{
    match v {
        Value::Object(at) => units_at(&st.heap, *at),
        Value::Null => None,
        Value::I4(_) => None,
        Value::I8(_) => None,
        Value::Native(_) => None,
        Value::Pointer(_) => None,
        Value::Struct(_, _) => None,
        Value::Handle(_) => None,
        Value::FieldHandle(_) => None,
    }
}

/// What a text is when it is printed: UTF-8, with U+FFFD for a surrogate that is in no pair.
#[tactic(auto, unfolding(rules::specs::step_rules::Objects::bytes_of_units))]
pub fn bytes_of_units(alloc: Global, units: &[u16]) -> Result<Text, NoMemory>
    ensures { IfOk result (λ bytes. bytes ≡ bytes_of_units units.now) }
{
    let text = String::from_utf16_lossy(alloc, units)?;
    Ok(Seq::from_vec(text.into_bytes()))
}

/// Makes a new string, and gives its number. None where the text is too long: the run is stopped.
pub fn made_text(alloc: Global, st: &mut State, units: Units) -> Result<Option<u32>, NoMemory>
    ensures { IfOk result (λ at. GoesOn (made_text units st.old) st.old at st.new) }
{
    if units.len() > TEXT_LIMIT {
        return Ok(None);
    }
    let at = st.heap.add(Obj::Str(units))?;
    Ok(Some(at))
}

fn holds_text(heap: &Heap, at: u32, units: &Units) -> bool
    ensures { result ≡ holds_text units.now (slice_get heap.now at) }
{
    match units_at(heap, at) {
        Some(others) => others.as_slice() == units.as_slice(),
        None => false,
    }
}

/// The object that `ldstr` gave for a text.
fn text_object(heap: &Heap, texts: &Seq<u32>, units: &Units) -> Option<u32>
    ensures { result ≡ find (λ at. holds_text units.now (slice_get heap.now at)) texts.now }
{
    for at in texts.as_slice() {
        if holds_text(heap, *at, units) {
            return Some(*at);
        }
    }
    None
}

/// A new string that `ldstr` gives from now on. None where the text is too long.
fn new_text(alloc: Global, st: &mut State, units: &Units) -> Result<Option<u32>, NoMemory>
    ensures { IfOk result (λ at. GoesOn (new_text units.now st.old) st.old at st.new) }
{
    let copy = Seq::from_slice(alloc, units.as_slice())?;
    let Some(at) = made_text(alloc, st, copy)? else {
        return Ok(None);
    };
    st.texts.push(at)?;
    Ok(Some(at))
}

/// The one object of a text (III.4.16), which is made now where it wasn't there. None where the text is too long: the run is
/// stopped.
pub fn interned(alloc: Global, st: &mut State, units: &Units) -> Result<Option<u32>, NoMemory>
    ensures { IfOk result (λ at. GoesOn (interned units.now st.old) st.old at st.new) }
{
    match text_object(&st.heap, &st.texts, units) {
        Some(at) => Ok(Some(at)),
        None => {
            let made = new_text(alloc, st, units)?;
            Ok(made)
        }
    }
}
