//! Laws on the worlds that a link gave: what each token names, where each item stands, and what worlds of files keep.

pub mod laws;
