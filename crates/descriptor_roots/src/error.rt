ghost use Rattle.std.specs.Prelude.{◌≡◌};
ghost use Rattle.descriptor_roots.specs.declared.error.RootsError.TheVariants as error;

use il_base::NoMemory;

/// Why descriptors give no roots.
#[derive(Clone, Copy, Debug, PartialEq, Eq)]
pub enum RootsError {
    /// `source` counts the inputs from 0, and then the named descriptors. `offset` is the place in the descriptor, in bytes, of the
    /// first token that isn't allowed there; its length where it ends too early.
    Bad { source: u32, offset: u32 },
    NoMemory,
}

impl From<NoMemory> for RootsError {
    ghost from_gives = { λ _ e. e ≡ error.NoMemory };

    fn from(_error: NoMemory) -> RootsError {
        RootsError::NoMemory
    }
}
