//! The law of tokens.

ghost use Rattle.merge_plan.specs.kept_tables.Laws.{TokensTell};

/// A law: the tables of an output give each row the token that it has in the output. It does nothing.
pub fn tokens_tell()
    ensures { TokensTell }
{}
