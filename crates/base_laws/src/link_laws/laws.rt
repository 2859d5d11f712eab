ghost use Rattle.rules.specs.link_rules.Laws.{LinksTell};

/// What a token or a signature names by the links of all type tokens is what it names by the assemblies' tables.
pub fn links_tell()
    ensures { LinksTell }
{}
