//! Law: no type comes to the place of an assembly's module by a merge. Nothing goes in or comes out.

pub mod laws;
