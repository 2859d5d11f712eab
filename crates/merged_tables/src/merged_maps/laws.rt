//! The law of maps.

ghost use Rattle.merged_tables.specs.merged_maps.Laws.{MapsTell};

/// The rows of maps, by the tables of an output, are those of the record that a merge leaves. It does nothing.
pub fn maps_tell()
    ensures { MapsTell }
{}
