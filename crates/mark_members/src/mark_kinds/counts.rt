//! The kinds that flags name, and the members that they name (II.23.1.5, II.23.1.10).

ghost use Rattle.std.specs.Prelude.{◌≡◌, ◌<◌};
ghost use Rattle.rules.specs.mark_rules.Members.{is_public_access, is_private_access, counts, pair};

use il_base::{access_of, has_type_flag, method_flags};

/// Two kinds, the public one and the other, as bits 1 and 2: whether flags name them.
pub(crate) fn pair(kinds: u32, public: u32, other: u32) -> u32
    requires public { 0 < public }
    requires other { 0 < other }
    ensures { result ≡ pair kinds public other }
{
    kinds / public % 2 + 2 * (kinds / other % 2)
}

/// Whether a member is public, by its flags.
pub(crate) fn is_public_access(flags: u16) -> bool
    ensures { result ≡ is_public_access flags }
{
    access_of(flags) == method_flags::PUBLIC
}

/// Whether a member is private, by its flags.
pub(crate) fn is_private_access(flags: u16) -> bool
    ensures { result ≡ is_private_access flags }
{
    access_of(flags) == method_flags::PRIVATE
}

/// Whether a member of the type itself, or of one of its bases, counts: a public one by bit 1 of `two`, another one by bit 2.
/// Private members of bases never count.
pub(crate) fn counts(own: bool, two: u32, flags: u16) -> bool
    ensures { result ≡ counts own two flags }
{
    let public = is_public_access(flags);
    public && has_type_flag(two, 1)
        || !public && has_type_flag(two, 2) && (own || !is_private_access(flags))
}
