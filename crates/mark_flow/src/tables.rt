//! What the flow of values is followed by.

use descriptor_texts::nested_types::nested::NestedTypes;
use site_kinds::known::Annotated;
use type_system::Types;

/// A world that a link gave, with what its annotations are read by, its types by their names, and its types by their enclosers.
#[derive(Clone, Copy)]
pub struct FlowTables<'a> {
    pub annotated: Annotated<'a>,
    pub types: &'a Types<'a>,
    pub nested: &'a NestedTypes,
}
