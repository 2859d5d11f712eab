//! The law that joins those on marked rows, methods and calls: all that kept rows lead to is kept, where the marked set is kept.
//! Nothing goes in or comes out.

pub mod laws;
