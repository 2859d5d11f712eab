ghost use Rattle.trim_laws.specs.marked_loads.Laws.{EntryTypeIsLeft, TrimLoads};

use file_laws::record_laws::laws::file_has_record;
use merge_laws::merged_loads::laws::{
    field_data_stays, field_types_kept, left_loads, parts_are_read,
};
use merge_laws::merged_owners::laws::owners_stay;

/// A law: the file that is written of what a trim leaves has exactly that record. It does nothing.
pub fn trim_loads()
    ensures { TrimLoads }
{
    file_has_record();
    parts_are_read();
    field_types_kept();
    field_data_stays();
    owners_stay();
    left_loads();
}

/// A law: the type of the entry method is left, so some type is. It does nothing.
pub fn entry_type_is_left()
    ensures { EntryTypeIsLeft }
{
    owners_stay();
}
