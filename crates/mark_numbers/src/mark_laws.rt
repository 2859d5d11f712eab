//! Laws: the marked set of the rules of marking is the least set of numbers that `closure` finds. There each fact brings the facts
//! that the rules derive from it and from known facts. Nothing goes in or comes out.

pub mod laws;
