//! The types of a world that a type can stand for (I.8.7): its base and interfaces, all types reachable by these, and whether one
//! type can stand for another. In go the tables of a world (`Tables`).

pub mod interfaces;
pub mod references;
pub mod relation;
pub mod rounds;
pub mod upwards;
