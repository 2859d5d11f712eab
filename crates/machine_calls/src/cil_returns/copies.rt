//! Copies of what waits for a method's end.

ghost use Rattle.std.specs.Prelude.{◌≡◌, IfOk};

use il_base::cil_values::{Value, Waits};
use il_base::{Boxed, NoMemory};
use machine_frames::cil_frames::copy_use;
use std::alloc::Global;

/// A copy.
pub(crate) fn copy_waits(alloc: Global, waits: &Waits) -> Result<Waits, NoMemory>
    ensures { IfOk result (λ copy. copy ≡ waits.now) }
{
    match waits {
        Waits::Nothing => Ok(Waits::Nothing),
        Waits::Makes(a) => Ok(Waits::Makes(*a)),
        Waits::MakesValue(a) => Ok(Waits::MakesValue(*a)),
        Waits::Starts(ty) => {
            let ty = ty.get().copy(alloc)?;
            let ty = Boxed::new(alloc, ty)?;
            Ok(Waits::Starts(ty))
        }
        Waits::Opens(ty, entry) => {
            let ty = ty.get().copy(alloc)?;
            let ty = Boxed::new(alloc, ty)?;
            let entry = copy_use(alloc, entry.get())?;
            let entry = Boxed::new(alloc, entry)?;
            Ok(Waits::Opens(ty, entry))
        }
        Waits::Core(member, args) => {
            let args = Value::copy_all(alloc, args.get().as_slice())?;
            let args = Boxed::new(alloc, args)?;
            Ok(Waits::Core(*member, args))
        }
    }
}
