//! The answers of a trim of a world.

ghost use Rattle.std.specs.Prelude.{◌≡◌};
ghost use Rattle.trim_core.specs.declared.program_trim.answers.TrimFault.TheVariants as fault;

use il_base::{NoMemory, Place, Text, TypeId};

/// The result of a trim.
#[derive(Drop)]
pub struct ProgramTrim {
    /// The file that is written.
    pub bytes: Text,
    /// The keep list, in UTF-8.
    pub kept: Text,
}

/// The refusals of a trim.
#[derive(Clone, Copy, Debug, PartialEq, Eq)]
pub enum TrimFault {
    /// A needed item has a form outside the profile, by its number in `il_base::outside`.
    Outside { place: Place, what: u8 },
    /// A needed item has a part that names nothing.
    Unresolved { place: Place },
    /// A method that is needed names a member of reflection that marking doesn't follow yet. Files are counted from 0.
    NotYet { file: u32 },
    /// Two types that are needed, of different assemblies, have one full name, and the second can't be renamed.
    Collision { first: TypeId, second: TypeId },
    /// More than a limit allows: a limit's number in `il_base::limit`, and what was found.
    Limit { which: u8, found: u64 },
    /// The allocator refused.
    NoMemory,
}

impl From<NoMemory> for TrimFault {
    ghost from_gives = { λ _ e. e ≡ fault.NoMemory };

    fn from(_error: NoMemory) -> TrimFault {
        TrimFault::NoMemory
    }
}
