ghost use Rattle.std.specs.Prelude.{◌≡◌};

use il_base::body_grammar::Fault;
use il_base::{Body, NoMemory};

/// Why bytes have no body at their front.
#[derive(Clone, Copy, Debug, PartialEq, Eq)]
pub enum BodyError {
    /// The bytes at the front spell no body. `at` is the first byte that no body allows, counted from the body's first;
    /// in its code it is the first byte of the instruction, and where a handler clause breaks a rule the first byte
    /// of that clause. It is the number of the bytes where these are cut short. `what` is one of `body_grammar`'s
    /// `FLOAT`, `INSTRUCTION`, `FILTER` and `BODY`.
    Bad { at: u32, what: u8 },
    NoMemory,
}

/// A body and the number of bytes that it takes.
#[derive(Drop)]
pub struct ReadBody {
    pub body: Body,
    pub length: u32,
}

impl From<Fault> for BodyError {
    ghost use Rattle.il_code.specs.declared.error.BodyError.TheVariants.{Bad};

    ghost from_gives = { λ f e. e ≡ Bad f.at f.what };

    fn from(fault: Fault) -> BodyError {
        BodyError::Bad {
            at: fault.at,
            what: fault.what,
        }
    }
}

impl From<NoMemory> for BodyError {
    ghost use Rattle.il_code.specs.declared.error.BodyError.TheVariants.{NoMemory};

    ghost from_gives = { λ _ e. e ≡ NoMemory };

    fn from(_error: NoMemory) -> BodyError {
        BodyError::NoMemory
    }
}
