//! Values in boxes.

ghost use Rattle.std.specs.Prelude.{◌≡◌, IfOk};
ghost use Rattle.std.specs.Option.{option_and_then};
ghost use Rattle.rules.specs.step_rules.Words.{object_at};
ghost use Rattle.rules.specs.step_rules.Places.{boxed_in};

use il_base::NoMemory;
use il_base::cil_values::{Obj, State, Value};
use std::alloc::Global;

/// The value in a box, by its number. None for an object that is none.
pub fn boxed_value(alloc: Global, st: &State, a: u32) -> Result<Option<Value>, NoMemory>
    ensures { IfOk result (λ v. v ≡ option_and_then boxed_in (object_at st.now a)) }
{
    let Some(o) = st.heap.get(a) else {
        return Ok(None);
    };
    match o {
        Obj::Boxed { of: _, value } => {
            let copy = value.copy(alloc)?;
            Ok(Some(copy))
        }
        Obj::Instance { of: _, cells: _ } => Ok(None),
        Obj::Array { of: _, cells: _ } => Ok(None),
        Obj::Str(_) => Ok(None),
        Obj::TypeOf(_) => Ok(None),
        Obj::Member(_, _) => Ok(None),
    }
}
