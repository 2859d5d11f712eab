ghost use Rattle.std.specs.Prelude.{◌≡◌};
ghost use Rattle.sig_blobs.specs.declared.error.SigError.TheVariants as sig_error;
ghost use Rattle.sig_blobs.specs.declared.error.Unread.TheVariants as unread;

use il_base::NoMemory;

/// Why a signature isn't read.
#[derive(Clone, Copy, Debug, PartialEq, Eq)]
pub enum SigError {
    /// `at` is the first byte that no value allows, counted from the blob's first byte; the blob's length where it
    /// ends too early. `what` is 1 for a float (R4 or R8) and 5 for anything else.
    Bad { at: u32, what: u8 },
    /// The allocator refused.
    NoMemory,
}

/// Why a part of a signature isn't read: `left` counts the bytes from the bad one to the end, itself among them.
#[derive(Clone, Copy, Debug, PartialEq, Eq)]
pub enum Unread {
    Bad { left: usize, what: u8 },
    Exhausted,
}

/// `what` of a float (R4 or R8).
pub const FLOAT: u8 = 1;

/// `what` of anything else that no value allows.
pub const MALFORMED: u8 = 5;

impl From<NoMemory> for Unread {
    ghost from_gives = { λ _ e. e ≡ unread.Exhausted };

    fn from(_error: NoMemory) -> Unread {
        Unread::Exhausted
    }
}

impl From<NoMemory> for SigError {
    ghost from_gives = { λ _ e. e ≡ sig_error.NoMemory };

    fn from(_error: NoMemory) -> SigError {
        SigError::NoMemory
    }
}
