//! Texts that members take.

ghost use Rattle.std.specs.Prelude.{◌≡◌};
ghost use Rattle.std.specs.Option.{option_copied};
ghost use Rattle.rules.specs.step_rules.CoreObjects.{name_units};

use il_base::cil_values::{State, Value};
use machine_words::cil_objects::units_of;

/// The UTF-16 units of the string that a value names, of null none. None where it is neither.
pub fn units_or_empty<'a>(st: &'a State, v: &Value) -> Option<&'a [u16]>
    ensures { option_copied result ≡ name_units st.now v.now }
{
    match v {
        Value::Null => Some(&[]),
        Value::Object(_) => match units_of(st, v) {
            None => None,
            Some(units) => Some(units.as_slice()),
        },
        Value::I4(_) => None,
        Value::I8(_) => None,
        Value::Native(_) => None,
        Value::Pointer(_) => None,
        Value::Struct(_, _) => None,
        Value::Handle(_) => None,
        Value::FieldHandle(_) => None,
    }
}
