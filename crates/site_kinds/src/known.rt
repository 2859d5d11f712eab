use attribute_values::tables::AttributeTables;
use mark_parts::mark_tables::marker::Marker;

/// A world with its tables, and what its annotations are read by.
#[derive(Clone, Copy)]
pub struct Annotated<'a> {
    pub marker: &'a Marker<'a>,
    pub tables: &'a AttributeTables<'a>,
}
