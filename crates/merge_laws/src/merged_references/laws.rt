ghost use Rattle.merge_laws.specs.merged_references.Laws.{TypesNamed, MetWritten};

/// A law: the token of a written type names it, under its new number. It does nothing.
pub fn types_named()
    ensures { TypesNamed }
{}

/// A law: a type in what is met is written. It does nothing.
pub fn met_written()
    ensures { MetWritten }
{}
