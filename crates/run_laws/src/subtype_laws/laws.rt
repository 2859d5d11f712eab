ghost use Rattle.run_laws.specs.subtype_laws.Laws.{BelowMoves, ChoicesMove};

/// A law: which kept types a kept type can stand for stays (I.8.7). It does nothing.
pub fn below_moves()
    ensures { BelowMoves }
{}

/// A law: the interface instance that the nearest of a kept type and its bases chooses for a kept one moves with it (II.12.2).
/// It does nothing.
pub fn choices_move()
    ensures { ChoicesMove }
{}
