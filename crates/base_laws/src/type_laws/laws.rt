ghost use Rattle.base_laws.specs.type_laws.Uses.{UsesTold};
ghost use Rattle.base_laws.specs.type_laws.Decisions.{SubtypeDecides};

/// What a MethodDef or MemberRef token names by the links of a linked world is what it names by the assemblies' tables.
pub fn uses_told()
    ensures { UsesTold }
{}

/// In a linked world the search for a subtype answers true exactly where the relation holds.
pub fn subtype_decides()
    ensures { SubtypeDecides }
{}
