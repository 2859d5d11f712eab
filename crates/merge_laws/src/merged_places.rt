//! Laws: in the world of a merge's output each kept type, method and field of the inputs stands under its new number, and two rows
//! stay two (`merged_world_rules`). Nothing goes in or comes out.

pub mod laws;
