ghost use Rattle.std.specs.Prelude.{◌<◌};

/// A character at the front of some bytes.
#[derive(Clone, Copy)]
pub struct Character {
    /// Its code point.
    pub code: u32,
    /// How many bytes it has after its first.
    pub more: usize,
    ghost in_range: { code < 0x110000 },
}
