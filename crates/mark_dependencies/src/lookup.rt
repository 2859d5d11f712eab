use descriptor_texts::nested_types::nested::NestedTypes;
use mark_parts::mark_tables::marker::Marker;
use type_names::TypeNames;

/// A world with its tables, its types by their enclosers, and their names.
#[derive(Clone, Copy)]
pub struct Lookup<'a, 'w> {
    pub marker: &'a Marker<'w>,
    pub nested: &'a NestedTypes,
    pub names: &'a TypeNames<'w>,
}
