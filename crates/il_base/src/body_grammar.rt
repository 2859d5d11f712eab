//! The grammar of method bodies (II.25.4): which bytes spell which body, and where bytes that spell none go wrong.
//! The definitions stand in `specs/body_grammar/`; here is the data that they and the readers share.

mod body;
mod body_laws;

pub use crate::outside::{BODY, FILTER, FLOAT, INSTRUCTION};
pub use body::{Fault, Header, Inline, Range, Row};
pub use body_laws::{
    fault_is_first, read_body_is_spelled, spelled_body_is_read, written_body_is_read,
    written_body_is_spelled,
};
