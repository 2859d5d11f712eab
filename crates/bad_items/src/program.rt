use crate::mark_flaws::tables::FlawTables;
use attribute_values::tables::AttributeTables;
use mark_parts::mark_tables::marker::Marker;
use marking::Marked;
use type_system::Types;

/// The world of a program with its tables, and what is marked.
#[derive(Clone, Copy)]
pub struct Program<'a> {
    pub marker: &'a Marker<'a>,
    pub attributes: &'a AttributeTables<'a>,
    pub tables: &'a FlawTables,
    /// The types of the world, by which the flow of values is followed.
    pub types: &'a Types<'a>,
    pub marked: &'a Marked,
}
