//! Laws: what a fact gives together with marked items that are known, where only those slots, interface rows and interfaces are
//! tried that its type and the type's bases have. Nothing goes in or comes out.

pub mod laws;
