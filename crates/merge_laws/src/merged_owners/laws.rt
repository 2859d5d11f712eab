ghost use Rattle.merge_laws.specs.merged_owners.Laws.{MembersBelong, OwnersStay};

/// A law: a field, method, property or event of an input that is marked is in a run. It does nothing.
pub fn members_belong()
    ensures { MembersBelong }
{}

/// A law: where exactly what is marked is kept, each kept member is in the run of a kept type, or of a row whose type is kept. It does
/// nothing.
pub fn owners_stay()
    ensures { OwnersStay }
{
    members_belong();
}
