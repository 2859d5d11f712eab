ghost use Rattle.std.specs.Prelude.{◌≡◌};
ghost use Rattle.inputs.specs.declared.error.InputError.TheVariants as error;

use il_base::{BadAt, NoMemory};

/// Why files make no world that can run. Files count from 0 in the order in which they were given.
#[derive(Clone, Copy, Debug, PartialEq, Eq)]
pub enum InputError {
    /// More than a limit allows (`il_base::limit`): 1 the number of files, 2 the length of a file, 3 the sum of the lengths,
    /// 5 the rows of one table. `found` is what there is.
    Limit { which: u8, found: u64 },
    /// The file has no record: the first demand of II.22 to II.25 that fails, at its offset in the file. Or the files don't
    /// link: the first demand of linking that fails, at the offset of the row, 0 where it's an assembly that is there twice.
    BadFile { file: u32, at: BadAt },
    /// The entry point token of the first file names no MethodDef row (II.25.3.3.2).
    NoEntry { token: u32 },
    NoMemory,
}

impl From<NoMemory> for InputError {
    ghost from_gives = { λ _ e. e ≡ error.NoMemory };

    fn from(_error: NoMemory) -> InputError {
        InputError::NoMemory
    }
}
