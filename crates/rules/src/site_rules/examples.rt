//! The examples of `specs/site_rules/Examples`, proved by computing them.

ghost use Rattle.rules.specs.site_rules.Examples as example;

/// What fails: anything, handles and texts where members are asked for; anything and parameters without an annotation where a name is
/// looked for.
pub fn failing()
    ensures methods { example.FailsMethods }
    ensures name { example.FailsName }
{}

/// Names that are known.
pub fn names()
    ensures known { example.KnowsNames }
    ensures unknown { example.KnowsNoName }
    ensures none { example.HasNoNames }
{}

/// Generic arguments.
pub fn arguments()
    ensures inside { example.AsksInside }
    ensures parameter { example.AsksOfParameter }
    ensures none { example.AsksNothing }
{}

/// Searches by members of reflection.
pub fn searches()
    ensures reached { example.Searches }
    ensures unreached { example.SearchesUnreached }
    ensures none { example.SearchesNothing }
    ensures name { example.LooksForName }
{}
