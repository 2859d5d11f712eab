//! The law of codes.

ghost use Rattle.token_keys.specs.key_codes.Laws.{CodesTell, KeyCodesTell};

/// Signatures are the same exactly where their codes are. It does nothing.
pub fn codes_tell()
    ensures { CodesTell }
{}

/// Types, members and instances are the same exactly where their codes are. It does nothing.
pub fn key_codes_tell()
    ensures { KeyCodesTell }
{}
