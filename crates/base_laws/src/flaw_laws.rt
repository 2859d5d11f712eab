//! Laws: the first bad item of a marked set (`rules/specs/mark_rules/BadItems`) is the least of a list of flaws, which is made item
//! by item and row by row. Nothing goes in or comes out.

pub mod laws;
