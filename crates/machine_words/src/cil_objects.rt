//! Objects: their types, the objects of texts, exceptions and their messages, the objects of types and of members. Each
//! answer is that of `rules/specs/step_rules/Objects`, of the last two that of `CoreTypes` and `CoreMembers` there.

mod exceptions;
mod instances;
mod member_objects;
mod messages;
mod texts;
mod type_objects;
mod types;

pub use exceptions::{new_exception, threw, wrapping};
pub use instances::new_instance;
pub use member_objects::{SeenMember, member_by};
pub use messages::{default_message, message_of, own_message, parameter_message};
pub use texts::{bytes_of_units, interned, made_text, units_of};
pub use type_objects::{typed, typed_by};
pub use types::{core_type, is_a, object_is_a, type_of};
