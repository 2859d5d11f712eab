//! Where the core library's types and methods stand in a world.

ghost use Rattle.std.specs.Prelude.{IfOk};
ghost use Rattle.cil_world.specs.world_types.CoreRows.{AreCoreRows};

use crate::world_core::{equals_row, to_string_row};
use il_base::NoMemory;
use il_base::world_model::AsmRec;
use type_tables::member_search::counted::{Counted, rows_before, sum};

/// More rows than the core library has types.
const MOST_TYPES: usize = 255;

/// The places in a world of what the core library begins with, and of two of its methods.
#[derive(Clone, Copy, Debug)]
pub struct CoreRows {
    /// The id of its first type.
    pub types: u32,
    /// The id of Object.ToString().
    pub to_string: u32,
    /// The id of Object.Equals(object).
    pub equals: u32,
}

impl CoreRows {
    /// Where they stand in these assemblies, the last of which is the core library.
    pub fn of(all: &[AsmRec]) -> Result<CoreRows, NoMemory>
        ensures { IfOk result (AreCoreRows all.now) }
    {
        let core = all.len().saturating_sub(1);
        let types = rows_before(all, Counted::Types, core)?;
        sum(types, MOST_TYPES)?;
        let methods = rows_before(all, Counted::Methods, core)?;
        let to_string = sum(methods, to_string_row() as usize)?;
        let equals = sum(methods, equals_row() as usize)?;
        Ok(CoreRows {
            types,
            to_string,
            equals,
        })
    }
}
