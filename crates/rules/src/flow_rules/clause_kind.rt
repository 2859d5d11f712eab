//! Kinds of exception handling clauses (II.25.4.6).

pub const CATCH: u8 = 0;

pub const FINALLY: u8 = 2;

pub const FAULT: u8 = 4;
