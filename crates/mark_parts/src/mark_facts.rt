//! Facts of marking and parts of items, as code keeps them: in go types, members and rows, out come lists that the definitions of
//! `mark_rules` have (`specs/mark_facts/Told`).

pub mod arguments;
pub mod exprs;
pub mod fact;
pub mod facts;
pub mod kinds;
pub mod naming;
pub mod part;
pub mod parts;
pub mod rows;
