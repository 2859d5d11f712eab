//! A law: what is written of a trim runs as its inputs do, from each method that is kept, for any input and any number of steps.
//! Nothing goes in or comes out.

pub mod laws;
