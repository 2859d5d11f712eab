//! Tests of flags (II.23.1).

ghost use Rattle.std.specs.Prelude.{◌≡◌, ◌<◌};
ghost use Rattle.il_base.specs.Flags.{has_flag, access_of};

/// Whether a flag of one bit is set among those of a member, a parameter or a generic parameter.
pub fn has_flag(flags: u16, bit: u16) -> bool
    requires { 0 < bit }
    ensures { result ≡ has_flag flags bit }
{
    flags / bit % 2 == 1
}

/// Whether a flag of one bit is set among those of a type (II.23.1.15).
pub fn has_type_flag(flags: u32, bit: u32) -> bool
    requires { 0 < bit }
    ensures { result ≡ has_flag flags bit }
{
    flags / bit % 2 == 1
}

/// The accessibility of a member: its low three flags (II.23.1.5, II.23.1.10).
pub fn access_of(flags: u16) -> u16
    ensures { result ≡ access_of flags }
{
    flags % 8
}
