//! Kinds of members, and which names a search wants.

ghost use Rattle.std.specs.Prelude.{◌≡◌};
ghost use Rattle.rules.specs.type_rules.Searches.{is_wanted};

use il_base::Text;

/// A kind of member that has a name.
#[derive(Clone, Copy, Debug, PartialEq, Eq)]
pub enum Kind {
    Field,
    Method,
    Property,
    Event,
}

/// A kind of member whose runs stand in a table of their own.
#[derive(Clone, Copy, Debug, PartialEq, Eq)]
pub enum Mapped {
    /// By PropertyMap (II.22.35).
    Property,
    /// By EventMap (II.22.12).
    Event,
}

/// Whether a search wants a name: any, or one.
pub fn is_wanted(wanted: &Option<Text>, name: &[u8]) -> bool
    ensures { result ≡ is_wanted wanted.now name.now }
{
    match wanted {
        None => true,
        Some(wanted) => name == wanted.as_slice(),
    }
}
