ghost use Rattle.base_laws.specs.change_laws.Laws.{ExprsMoveBack, UsesMoveBack, FieldUsesMoveBack, PathsMoveBack, SubstMoves, SubstKeeps, KeptDefined, SubstDefined, SameExprs, SamePlaces, SameGlobals, SameTypes};
ghost use Rattle.base_laws.specs.change_laws.CellLaws.{CellsRead, CellsWritten, ZerosMove};
ghost use Rattle.base_laws.specs.change_laws.Numbers.{OldOfNew};

/// A law: numbers that are led back give types, uses and places as they were. It does nothing.
pub fn moves_back()
    ensures types { ExprsMoveBack }
    ensures uses { UsesMoveBack }
    ensures field_uses { FieldUsesMoveBack }
    ensures paths { PathsMoveBack }
{}

/// A law: the arguments put in and then moved are the moved arguments put in, and what is put in stays kept. It does nothing.
pub fn substitution_moves()
    ensures moves { SubstMoves }
    ensures keeps { SubstKeeps }
{}

/// A law: a type that is kept names only definitions that are kept, and a type that names no others still does with arguments put
/// in. It does nothing.
pub fn definitions_stay()
    ensures kept { KeptDefined }
    ensures substituted { SubstDefined }
{}

/// A law: two types, two places, and the keys of static fields and initializers are the same after a move exactly where they
/// were before. It does nothing.
pub fn same_stays_same()
    ensures types { SameExprs }
    ensures places { SamePlaces }
    ensures globals { SameGlobals }
    ensures inits { SameTypes }
{}

/// A law: a cell that is kept is read and written after a move as before, and the cells at first move. It does nothing.
pub fn cells_move()
    ensures read { CellsRead }
    ensures written { CellsWritten }
    ensures zeros { ZerosMove }
{}

/// A law: each number is led back from the new one. It does nothing.
pub fn numbers_come_back()
    ensures { OldOfNew }
{}
