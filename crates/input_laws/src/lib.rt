//! Laws on what is taken of files (`inputs`): the records of files whose world was made keep the rules of II.22, and rows of
//! MethodImpl name rows that are there. Nothing goes in or comes out.
#![tactic(auto)]

pub mod laws;
