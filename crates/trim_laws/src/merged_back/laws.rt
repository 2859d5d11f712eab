ghost use Rattle.trim_laws.specs.merged_back.Laws.{EnclosersStay, FieldsRead, LeftLinks, MarkedLinks};

use merge_laws::merged_owners::laws::owners_stay;
use merge_laws::merged_standing::laws::reference_rows_stand;

/// A law: what a merge leaves of inputs that link links, where what it reads is what they read, moved, and types go with those around
/// them. It does nothing.
pub fn left_links()
    ensures { LeftLinks }
{}

/// A law: where exactly what is marked is kept, the type around a kept type is. It does nothing.
pub fn enclosers_stay()
    ensures { EnclosersStay }
{}

/// A law: there, a kept field's signature names in the output what it named, moved, if all that the output refers to is there. It does
/// nothing.
pub fn fields_read()
    ensures { FieldsRead }
{
    owners_stay();
    reference_rows_stand();
}

/// A law: so what a merge leaves that keeps exactly what is marked links. It does nothing.
pub fn marked_links()
    ensures { MarkedLinks }
{
    left_links();
    enclosers_stay();
}
