ghost use Rattle.merge_laws.specs.merged_loads.Laws.{FieldDataStays, LeftCanBeLaid, LeftLoads};
ghost use Rattle.merge_laws.specs.merged_loads.Marked.{FieldTypesKept, ModuleStays, PartsAreRead};

use crate::merged_record::laws::restricted_is_record;
use file_laws::layout_laws::laws::reads_back;
use file_laws::record_laws::laws::file_has_record;
use il_base::blob_grammar::laws::values;

/// A law: what is left of files' records can be laid out, where it is a record, its signatures and bodies have readings and
/// spellings, and its file passes no limit. It does nothing.
pub fn left_can_be_laid()
    ensures { LeftCanBeLaid }
{
    values();
}

/// A law: the file that is written of what is left of files' records has exactly that record, where no reference is missing in it
/// and members go with what they belong to. It does nothing.
pub fn left_loads()
    ensures { LeftLoads }
{
    left_can_be_laid();
    reads_back();
    restricted_is_record();
    file_has_record();
}

/// A law: the bytes of a kept field are as many as its type has in the record that is left of files' records, where they have a
/// meaning and the types of kept fields are kept. It does nothing.
pub fn field_data_stays()
    ensures { FieldDataStays }
{
    file_has_record();
}

/// A law: where what is kept is marked, and no marked item has a flaw, each signature and body of a kept row has a reading in what
/// is left, and the bytes of each kept field a meaning. It does nothing.
pub fn parts_are_read()
    ensures { PartsAreRead }
{}

/// A law: where exactly what is marked is kept, and no marked item has a flaw, the type of each kept field is kept. It does nothing.
pub fn field_types_kept()
    ensures { FieldTypesKept }
{}

/// A law: a type is left of inputs where all that is marked is kept, since the first type of the first one is. It does nothing.
pub fn module_stays()
    ensures { ModuleStays }
{}
