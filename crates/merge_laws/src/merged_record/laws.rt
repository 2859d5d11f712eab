ghost use Rattle.merge_laws.specs.merged_record.Laws.{RestrictedIsRecord};

/// A law: the record that is left of records is one, where no reference is missing in it and members go with what they belong to.
/// It does nothing.
pub fn restricted_is_record()
    ensures { RestrictedIsRecord }
{}
