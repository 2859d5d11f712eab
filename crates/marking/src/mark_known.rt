//! The facts that follow from one fact together with marked items that are known. In go a world with its tables, a fact and the set
//! of known facts; out come facts, as `base_laws/specs/known_laws/Known` lists them.

pub mod interfaces;
pub mod known;
pub mod lineage;
pub mod own;
pub mod rows;
pub mod slots;
pub mod together;
