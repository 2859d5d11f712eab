//! The grammar of what `#Blob` holds, as definitions in `specs/blob_grammar/`: which bytes spell which number (II.23.2), token
//! (II.23.2.8) and signature (II.23.2.1 to II.23.2.15), which spelling is written, and what a reader answers.
//! Nothing goes in or comes out; the public functions without a body are laws about these definitions.

mod element;
pub mod laws;

pub use element::Element;
