ghost use Rattle.trim_laws.specs.marked_mets.Laws.{MembersAreKept, MetsAreKept, MetsOfTypesAreKept};

/// A law: what kept types meet of inputs is kept, types and members. It does nothing.
pub fn mets_of_types_are_kept()
    ensures { MetsOfTypesAreKept }
{}

/// A law: so is each type of an input in all that the output meets. It does nothing.
pub fn mets_are_kept()
    ensures { MetsAreKept }
{}

/// A law: so is each member that it meets, if it isn't the core library's. It does nothing.
pub fn members_are_kept()
    ensures { MembersAreKept }
{}
