use descriptor_texts::descriptor_types::types::DescriptorTypes;
use descriptor_texts::slashed_names::names::SlashedNames;
use mark_parts::mark_tables::marker::Marker;

/// A world with its tables, the names of its types, and its types by these names.
#[derive(Clone, Copy)]
pub struct Lookup<'a, 'w> {
    pub marker: &'a Marker<'w>,
    pub names: &'a SlashedNames,
    pub types: &'a DescriptorTypes<'a>,
}
