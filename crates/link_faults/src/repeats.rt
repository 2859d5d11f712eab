//! The first of some lists that is the same as an earlier one.

ghost use Rattle.std.specs.Prelude.{◌≡◌, bytes_eq, IfOk};
ghost use Rattle.rules.specs.link_rules.Faults.{first_repeat};

use il_base::{NoMemory, Seq};
use std::alloc::Global;
use std::collections::HashSet;

/// The place, from 0, of the first list that is the same as an earlier one. None is the same as nothing.
pub(crate) fn first_repeat(
    alloc: Global,
    codes: &[Option<Seq<u32>>],
) -> Result<Option<usize>, NoMemory>
    ensures { IfOk result (λ at. at ≡ first_repeat bytes_eq codes.now) }
{
    let mut met: HashSet<&[u32]> = HashSet::new(alloc);
    for (at, code) in codes.iter().enumerate() {
        if let Some(code) = code {
            let code = code.as_slice();
            if met.contains(code) {
                return Ok(Some(at));
            }
            met.insert(code)?;
        }
    }
    Ok(None)
}
