//! Which method a virtual call runs: the slot of a method, and what a type has for a class slot or for a slot of an
//! interface instance. A method's id and types go in, a method's id comes out, as `dispatch` of `type_rules` has it.
#![tactic(auto)]

pub mod class_slots;
pub mod dispatch;
pub mod flags;
pub mod impls;
pub mod interface_slots;
pub mod named_members;
pub mod nearest;
pub mod slots;
