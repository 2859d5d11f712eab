//! Laws of the words in which the forms of instruction are written: where two worlds agree, each word keeps step.

pub mod laws;
