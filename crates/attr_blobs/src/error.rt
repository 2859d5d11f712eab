ghost use Rattle.std.specs.Prelude.{◌≡◌};
ghost use Rattle.attr_blobs.specs.declared.error.Unread.TheVariants.{Exhausted};

use il_base::NoMemory;

/// Why an attribute's value isn't read.
#[derive(Clone, Copy, Debug, PartialEq, Eq)]
pub enum AttrError {
    /// `at` is the first byte that no value allows, counted from the blob's first byte; the blob's length where it
    /// ends too early. A place past 2^32 - 1 is given as this number.
    Bad { at: u32 },
    /// The allocator refused.
    NoMemory,
}

/// Why a part of a value isn't read: `left` counts the bytes from the bad one to the end, itself among them.
#[derive(Clone, Copy, Debug, PartialEq, Eq)]
pub enum Unread {
    Bad { left: usize },
    Exhausted,
}

impl From<NoMemory> for Unread {
    ghost from_gives = { λ _ e. e ≡ Exhausted };

    fn from(_error: NoMemory) -> Unread {
        Unread::Exhausted
    }
}
