//! Laws: what is marked belongs to a type, and members that are kept go with the types that they belong to. Nothing goes in or comes
//! out.

pub mod laws;
