ghost use Rattle.attr_blobs.specs.Laws.{ReadsValues, RefusesValues, WritesValues, ReadAgain};

/// A value that some blob spells is read again from the spelling that is written of it.
pub fn written_is_read()
    ensures { ReadAgain }
{}

/// A blob gives a value exactly where the grammar relates the two, and else the first byte that no value allows. The
/// spelling that is written of a value is one of its spellings, and gives the value again.
pub fn values()
    ensures read { ReadsValues }
    ensures refused { RefusesValues }
    ensures written { WritesValues }
{}
