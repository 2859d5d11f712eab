//! The law of runs: where two worlds agree, a step of the moved state is the moved step, and so is any number of steps, and a whole
//! run from an entry point that is kept. Each law is the contract of a function with an empty body.

pub mod laws;
