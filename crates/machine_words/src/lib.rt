//! What the machine's instructions are written in: the queries that a world answers (`cil_queries`), the words for what a step comes to
//! (`cil_words`), closed types (`cil_closing`), what slots keep (`cil_stores`), managed pointers (`cil_places`) and objects (`cil_objects`).
#![tactic(auto)]

pub mod cil_closing;
pub mod cil_objects;
pub mod cil_places;
pub mod cil_queries;
pub mod cil_stores;
pub mod cil_words;
