ghost use Rattle.run_laws.specs.query_laws.Laws.{HomesMove, BasesMove, KinsMove, HeadsMove, MethodsMove, FieldsMove, TextsMove, LabelsMove, SpacesMove, EnclosersMove, EnclosersKept, ShapesMove, CellsMove, ShapesKept, FirstsMove, StartsMove, StartsKept, MatchesMove, SlotsMove};

/// A law: the definition of a kept type, and its base with arguments put in, move with it. It does nothing.
pub fn bases_move()
    ensures homes { HomesMove }
    ensures bases { BasesMove }
{}

/// A law: the nearest type of the core library among the bases of a kept type stays. It does nothing.
pub fn kins_move()
    ensures { KinsMove }
{}

/// A law: what is answered of a kept type definition, method and field moves with it. It does nothing.
pub fn definitions_move()
    ensures heads { HeadsMove }
    ensures methods { MethodsMove }
    ensures fields { FieldsMove }
{}

/// A law: the text, the name and the namespace of a shown type stay. It does nothing.
pub fn texts_move()
    ensures texts { TextsMove }
    ensures labels { LabelsMove }
    ensures spaces { SpacesMove }
{}

/// A law: the type around a shown type moves with it, and is kept and shown. It does nothing.
pub fn enclosers_move()
    ensures moves { EnclosersMove }
    ensures keeps { EnclosersKept }
{}

/// A law: the shape of a kept type, with the cells of a struct, moves with it, and what it names is kept. It does nothing.
pub fn shapes_move()
    ensures moves { ShapesMove }
    ensures keeps { ShapesKept }
{}

/// A law: the cells of an instance of a kept class move with it, without those of fields that aren't kept. It does nothing.
pub fn cells_move()
    ensures { CellsMove }
{}

/// A law: what is found first among moved rows that are kept is the moved row that was found. It does nothing.
pub fn firsts_move()
    ensures { FirstsMove }
{}

/// A law: the initializer of a type whose initializer an access can begin moves with it, and is kept. It does nothing.
pub fn starts_move()
    ensures moves { StartsMove }
    ensures keeps { StartsKept }
{}

/// A law: the nearest virtual method of a name and a signature moves, where it is kept. It does nothing.
pub fn matches_move()
    ensures { MatchesMove }
{}

/// A law: the slot of a kept method moves with it (II.10.3). It does nothing.
pub fn slots_move()
    ensures { SlotsMove }
{}
