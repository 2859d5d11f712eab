ghost use Rattle.trim_laws.specs.added_names.Laws.{NamesStay, MetThere, TokensRead, SignaturesRead};

/// A law: a type of the core library that is met is in the output's world. It does nothing.
pub fn names_stay()
    ensures { NamesStay }
{}

/// A law: what is met is there, where what is met of inputs is kept. It does nothing.
pub fn met_there()
    ensures { MetThere }
{}

/// A law: tokens of what is met name the types that they named, moved. It does nothing.
pub fn tokens_read()
    ensures { TokensRead }
{}

/// A law: signatures of kept methods name the types that they named, moved. It does nothing.
pub fn signatures_read()
    ensures { SignaturesRead }
{}
