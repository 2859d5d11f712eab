ghost use Rattle.std.specs.Prelude.{◌≡◌};
ghost use Rattle.trim_core.specs.declared.answers.Refusal.TheVariants as refusal;

use il_base::{BadAt, NoMemory, Place, Text, TypeId};

/// The options of a trim.
#[derive(Clone, Copy, Debug, PartialEq, Eq)]
pub struct Opts {
    /// Whether public types of all files but the first become internal.
    pub internalize: bool,
    /// Whether the keep list is wanted.
    pub keep_list: bool,
}

/// The refusals of `trim`. Files are counted from 0 in the order in which they were given.
#[derive(Clone, Copy, Debug, PartialEq, Eq)]
pub enum Refusal {
    /// The file has no record: the first demand of II.22 to II.25 that fails, at its offset in the file. Or the files don't
    /// link: the first demand of linking that fails, at the offset of the row, 0 for a duplicate name of an assembly.
    BadFile { file: u32, at: BadAt },
    /// A needed item has a form outside the profile, by its number in `il_base::outside`.
    Outside { place: Place, what: u8 },
    /// A needed item has a part that names nothing.
    Unresolved { place: Place },
    /// A method of the file that is needed names a member of reflection that marking doesn't follow yet: one that does more than look
    /// at types.
    NotYet { file: u32 },
    /// Two types that are needed, of different assemblies, have one full name, and the second can't be renamed. Types are counted
    /// from 0 over the TypeDef rows of all files in order.
    Collision { first: TypeId, second: TypeId },
    /// A malformed descriptor, with the offset in bytes of the first token that isn't allowed there. `source` counts the files
    /// from 0, for the descriptor that a file has embedded, and then the named descriptors.
    BadDescriptor { source: u32, offset: u32 },
    /// More than a limit allows: a limit's number in `il_base::limit`, and what was found.
    Limit { which: u8, found: u64 },
    /// The entry point token of the first file names no MethodDef row (II.25.3.3.2).
    NoEntry { token: u32 },
    /// The allocator refused.
    NoMemory,
}

impl From<NoMemory> for Refusal {
    ghost from_gives = { λ _ e. e ≡ refusal.NoMemory };

    fn from(_error: NoMemory) -> Refusal {
        Refusal::NoMemory
    }
}

/// The result of a trim.
#[derive(Drop)]
pub struct Trimmed {
    /// The file that is written.
    pub bytes: Text,
    /// The keep list in UTF-8; empty where it isn't wanted.
    pub kept: Text,
}
