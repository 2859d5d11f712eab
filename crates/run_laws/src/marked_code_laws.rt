//! Laws: where the marked set is kept, what the signature and the body of a kept method name is kept, as a step needs it
//! (`rules/specs/change_rules/Keeps`). Nothing goes in or comes out.

pub mod laws;
