//! The rows of an assembly's tables as a record has them (II.22), with their signatures (II.23.2) and method bodies (II.25.4). A
//! table's rows are read by the trait `Row`, and by `SignatureRow` where they name the blob of a signature. A blob without a
//! meaning is read once for all rows that name it. `Types`, `Members` and `Others` of `rules/specs/record_format/` define each row.

mod assemblies;
mod bodies;
mod extras;
mod faults;
mod members;
mod parts;
mod row;
mod signatures;
mod types;

pub use row::{Row, all_rows};
pub use signatures::{HasSignature, SignatureRow, signature_rows};
