//! Members of Type that look at types alone, Object.GetType, Type.GetType by a name, searches for the members of a type, and
//! members that look at what was found. In go the arguments, `this` first; out comes what the call comes to, as
//! `rules/specs/step_rules/CoreTypes`, `CoreSearches` and `CoreMembers` have it.

mod comparisons;
mod kinds;
mod member_searches;
mod members;
mod names;
mod searches;
mod type_values;

pub use comparisons::{type_fits, type_has, type_other};
pub use kinds::{type_is_array, type_is_interface, type_is_value};
pub use member_searches::{member_find, member_list};
pub use members::{
    member_name, member_other, member_owner, member_same, member_type, method_is_static,
};
pub use names::{type_full_name, type_namespace, type_text};
pub use searches::find_form;
pub use type_values::{object_type, type_from_handle};
