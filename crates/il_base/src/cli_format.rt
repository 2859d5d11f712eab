//! What a file of the CLI demands (ECMA-335 II.22 to II.25): its demands in order with their refusals, the places of
//! its sections, streams, tables, rows, cells and heap items. Bytes go in; the definitions of `specs/cli_format/` are the result.

mod coded;
mod column;
mod demand;
mod error;
mod key;
mod laws;
mod schema;
mod section;
mod stream;

pub use crate::reason::{
    BAD_HEAP, BAD_ROOT, BAD_RVA, BAD_STREAM, LIST_ORDER, NATIVE, NO_CLI, NOT_IL_ONLY, NOT_PE,
    ROW_OUT_OF_RANGE, SORT_ORDER, TRUNCATED, UNKNOWN_TABLE,
};
pub use coded::{first_tag, tag_bits, targets};
pub use column::{CodedIndex, Column};
pub use demand::{need, need_bytes, u8_in, u16_in, u32_in, u64_in};
pub use error::TablesError;
pub use key::{SortKey, sort_key};
pub use laws::{
    cells_name_items, fault_is_first, no_fault, rows_are_few, runs_never_fall, tables_are_sorted,
};
pub use schema::columns;
pub use section::Section;
pub use stream::{Stream, StreamName, stream_name};
