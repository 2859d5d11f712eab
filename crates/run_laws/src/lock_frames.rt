//! Laws of frames: where two worlds agree, the entering of methods, the beginning of initializers and the dispatch of virtual calls
//! keep step. The law is the contract of a function with an empty body.

pub mod laws;
