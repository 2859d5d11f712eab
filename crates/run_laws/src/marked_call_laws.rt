//! Laws: where the marked set is kept, what a virtual call of a kept method runs for an object of a type that is made is kept
//! (II.10.3, II.12.2). Nothing goes in or comes out.

pub mod laws;
