ghost use Rattle.std.specs.Prelude.{◌≡◌};

use il_base::{Place, Text};
use inputs::InputError;

/// How a run stands after the steps that it was given.
#[derive(Drop)]
pub enum EndKind {
    /// The entry method returned; 0 for one that returns nothing.
    Ended { code: i32 },
    /// An exception that nobody catches: the text of its type and its message, in UTF-8.
    Threw { kind: Text, message: Text },
    /// The steps were used up.
    Spent,
    /// An operand that names nothing usable, or a limit of the machine, was reached.
    Stopped { place: Place },
    /// The code breaks a rule that the machine relies on.
    Stuck { place: Place },
}

/// What a run printed, and how it ended.
#[derive(Drop)]
pub struct Ending {
    pub output: Text,
    pub end: EndKind,
}

/// Why a run over a sink gave no end.
#[derive(Clone, Copy, Debug, PartialEq, Eq)]
pub enum ExecFault {
    Refused(InputError),
    /// The sink failed.
    Write,
}
