//! The members of a type by name, as reflection finds them: what goes in is the tables of a world and a type, what comes out
//! is what `rules/specs/type_rules/Searches` lists.

pub mod accessors;
pub mod counts;
pub mod impls;
pub mod kinds;
pub mod mapped;
pub mod members;
pub mod named;
pub mod overrides;
pub mod rows;
pub mod runs;
