//! Laws: where the marked set is kept, all that rows of kept types, methods and fields name is kept, as a step needs it
//! (`rules/specs/world_change_rules/Kept`). Nothing goes in or comes out.

pub mod laws;
