ghost use Rattle.std.specs.Prelude.{◌≡◌};

use il_base::{BadAt, Place, Text, TypeId};

/// How the program answers.
#[derive(Debug, Drop)]
pub enum Status {
    /// `trim` wrote its file.
    Done,
    /// The program of `exec` returned from its entry point.
    Ended { code: i32 },
    /// The words aren't a command's: the place of the first bad word, counted from 0, or the number of words where one
    /// is missing.
    BadWords { place: u32 },
    /// A file, counted from 0, has no record: the first demand of II.22 to II.25 that fails, at its offset. Or it doesn't
    /// link: 0 for an assembly that is there twice, else the offset of the row.
    BadFile { file: u32, at: BadAt },
    /// Something that `trim` keeps is outside what can be trimmed: `what` is its number in `il_base::outside`.
    Outside { place: Place, what: u8 },
    /// Something that `trim` keeps has a part that names nothing.
    Unresolved { place: Place },
    /// A method of a file, counted from 0, that `trim` keeps calls or names a member of reflection that marking doesn't follow yet.
    NotYet { file: u32 },
    /// Two types that `trim` keeps would have one name in one assembly. Types are counted from 0 over all files.
    Collision { first: TypeId, second: TypeId },
    /// A descriptor can't be read from this offset in bytes on. Sources are counted from 0: all files, for the descriptors in
    /// them, and then the descriptors that have files of their own.
    BadDescriptor { source: u32, offset: u32 },
    /// More than a limit allows (`il_base::limit`): 1 files, 2 bytes of a file, 3 bytes of all files, 4 bytes of a named descriptor,
    /// 5 rows of a table, 7 bytes of the file that is written, 8 bytes of the input. `found` is what there is.
    Limit { which: u8, found: u64 },
    /// The entry point token of the first file names no method (II.25.3.3.2).
    NoEntry { token: u32 },
    /// A file or the input couldn't be read.
    ReadFault,
    /// The file, the output or the status line couldn't be written.
    WriteFault,
    NoMemory,
    /// The program of `exec` threw an exception that nobody caught: the text of its type and its message, in UTF-8.
    Threw { kind: Text, message: Text },
    /// The program of `exec` used up its steps.
    Spent { steps: u64 },
    /// The program of `exec` reached an operand that names nothing usable, or a limit.
    Stopped { place: Place },
    /// The program of `exec` broke a rule that the machine relies on.
    Stuck { place: Place },
}

impl Status {
    ghost use Rattle.status_lines.specs.Lines.{code_of};

    /// The code that the program ends with.
    pub fn code(&self) -> u8
        ensures { result ≡ code_of self.now }
    {
        match self {
            Status::Done => 0,
            Status::Ended { .. } => 0,
            Status::BadWords { .. } => 2,
            Status::BadFile { .. } => 3,
            Status::Outside { .. } => 4,
            Status::Unresolved { .. } => 5,
            Status::Collision { .. } => 6,
            Status::BadDescriptor { .. } => 7,
            Status::Limit { .. } => 8,
            Status::ReadFault => 9,
            Status::WriteFault => 10,
            Status::NoMemory => 11,
            Status::NoEntry { .. } => 12,
            Status::Threw { .. } => 20,
            Status::Spent { .. } => 21,
            Status::Stopped { .. } => 22,
            Status::Stuck { .. } => 23,
            Status::NotYet { .. } => 30,
        }
    }
}
