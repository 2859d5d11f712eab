//! Laws: what kept rows of a merge's inputs have in the world of its output (`rules/specs/world_change_rules/Rows`), as far as it needs no
//! reference of the output. Nothing goes in or comes out.

pub mod laws;
