//! Bodies with their references resolved: a body of an assembly goes in, and `il_base::cil_values::Code` comes out, as
//! `rules/specs/view_rules/Code` has it.

pub mod code;
mod copies;
mod operands;
mod tokens;
