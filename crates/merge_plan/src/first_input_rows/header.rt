//! Flags in the CLI header (II.25.3.3.1).

ghost use Rattle.std.specs.Prelude.{◌≡◌};
ghost use Rattle.rules.specs.merge_rules.Restricted.{kept_bits};

/// 32BITREQUIRED (2) and 32BITPREFERRED (20000), which stay.
const KEPT: u32 = 0x2_0002;

/// ILONLY, and those of the input's flags that stay.
pub fn kept_bits(bits: u32) -> u32
    ensures { result ≡ kept_bits bits }
{
    1 + (bits & KEPT)
}
