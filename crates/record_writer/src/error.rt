//! Why a record isn't written.

use il_base::NoMemory;

/// Why a record isn't written.
#[derive(Clone, Copy, Debug, PartialEq, Eq)]
pub enum WriteError {
    /// More than a limit allows.
    Limit {
        /// The limit's number: 5 for rows, 7 for bytes.
        which: u8,
        /// How many there would be: rows of the first table that has too many, 65535 where a run begins after the last of so
        /// many rows, bytes of `#US`, or bytes of the file.
        found: u64,
    },
    /// The allocator refused.
    NoMemory,
}

impl From<NoMemory> for WriteError {
    ghost use Rattle.std.specs.Prelude.{◌≡◌};
    ghost use Rattle.record_writer.specs.declared.error.WriteError.TheVariants as errors;

    ghost from_gives = { λ _ e. e ≡ errors.NoMemory };

    fn from(_error: NoMemory) -> WriteError {
        WriteError::NoMemory
    }
}
