ghost use Rattle.merge_laws.specs.merged_standing.Laws.{MembersStand, ReferenceRowsStand, TypesStand};

/// A law: each member that the output of a merge of records refers to has one row. It does nothing.
pub fn members_stand()
    ensures { MembersStand }
{}

/// A law: so has each type, with the core library after the inputs. It does nothing.
pub fn types_stand()
    ensures { TypesStand }
{}

/// A law: so each merge has the rows that the laws on its output's own world ask for. It does nothing.
pub fn reference_rows_stand()
    ensures { ReferenceRowsStand }
{}
