ghost use Rattle.std.specs.Prelude.{◌≡◌, unwrap_or, slice_get, false};

use crate::seq::Seq;

/// A set of numbers below a bound: a flag for each.
#[derive(Drop)]
pub struct Bits {
    pub flags: Seq<bool>,
}

impl Bits {
    /// Whether `n` is in the set.
    pub fn has(&self, n: u32) -> bool
        ensures { result ≡ unwrap_or (slice_get self.now.flags n) false }
    {
        match self.flags.get(n as usize) {
            Some(flag) => *flag,
            None => false,
        }
    }
}
