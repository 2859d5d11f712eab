ghost use Rattle.trim_laws.specs.trim_moves.Laws.{FlagsSay, BasesAreGood, InterfacesAreGood, LeftIsRecord, NamesStay};

use merge_laws::merged_owners::laws::owners_stay;
use merge_laws::merged_record::laws::restricted_is_record;

/// A law: the flags of rows say what the merge keeps, and what kept rows name is kept. It does nothing.
pub fn flags_say()
    ensures { FlagsSay }
{}

/// A law: the base of a kept type has a reading. It does nothing.
pub fn bases_are_good()
    ensures { BasesAreGood }
{}

/// A law: the interface of a kept row has a reading, and is kept. It does nothing.
pub fn interfaces_are_good()
    ensures { InterfacesAreGood }
{}

/// A law: what is left is a record, where its references stand and it names all that it has to name. It does nothing.
pub fn left_is_record()
    ensures { LeftIsRecord }
{
    owners_stay();
    restricted_is_record();
}

/// A law: types that can be seen keep their names. It does nothing.
pub fn names_stay()
    ensures { NamesStay }
{}
