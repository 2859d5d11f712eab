/// A part of an assembly that has a meaning, or the reason why it has none.
#[derive(Drop)]
pub enum Known<T> {
    Good(T),
    Bad(BadKind),
}

/// Why a part has no meaning.
#[derive(Clone, Copy, Debug, PartialEq, Eq)]
pub enum BadKind {
    /// A reference that names nothing.
    Unresolved,
    /// A form outside the profile, by its number.
    Outside(u8),
    /// More than a limit allows.
    Over { which: u8, found: u64 },
}
