//! The types that the value of a custom attribute names (II.23.3). In go a value, the types of a world by name (`type_names`) and
//! the assembly from which names are looked up; out come types, as `value_types` of `rules/specs/mark_rules/Attributes` lists them.

pub mod named;
pub mod texts;
pub mod values;
