ghost use Rattle.merge_laws.specs.merged_signatures.Laws.{SignaturesMove, MethodTypesMove, TokensMove};

/// A law: a signature that is written names the moved type. It does nothing.
pub fn signatures_move()
    ensures sigs { SignaturesMove }
    ensures methods { MethodTypesMove }
{}

/// A law: a type token that is written names the moved type. It does nothing.
pub fn tokens_move()
    ensures { TokensMove }
{}
