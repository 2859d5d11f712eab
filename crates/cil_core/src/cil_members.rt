//! What a call of a member of the core library comes to, and the arguments that members take. In go the values that the caller
//! passed; out come those that the member takes, as `rules/specs/step_rules/CoreWords` has it.

mod arguments;
mod core_out;
mod ends;
mod texts;

pub use arguments::{Taken, checked};
pub use core_out::CoreOut;
pub use ends::{
    gives_int, gives_text, gives_truth, gives_value, int_of, raised, stopped_member, stuck_member,
};
pub use texts::units_or_empty;
