//! Numbers, zeros and padding, appended to bytes. `rules/specs/file_layout/Bytes` defines them.

mod bytes;

pub use bytes::{next_multiple, pad, put_half, put_number, put_word, put_zeros};
