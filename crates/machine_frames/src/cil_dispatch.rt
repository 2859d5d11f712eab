//! Which method a virtual call runs, and what it takes as `this` (I.12.4.1.4, III.4.2). In go a called method and the type of
//! the object; out comes the method that is found, as `rules/specs/step_rules/Dispatch` has it.

mod dispatching;
mod methods;
mod receivers;

pub use dispatching::{Target, dispatched, found_from};
pub use methods::{is_abstract, is_virtual, slots_of};
pub use receivers::{path_into_box, this_for};
