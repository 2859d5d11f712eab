//! Laws on new numbers of types, methods and fields: types, places and values that moved are equal where they were, substitution
//! moves, and so do the cells of instances. Each law is the contract of a function with an empty body.

pub mod laws;
