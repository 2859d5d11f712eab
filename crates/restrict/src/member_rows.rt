//! The MemberRef and MethodSpec rows of the output of a merge (II.22.25, II.22.29): in go the members and the methods with arguments
//! that it refers to, each once (`met_keys`), a world with its keys (`world_keys`), and the tokens by which rows name others
//! (`key_tokens`, `number_tokens`); out come the rows. `rules/specs/merge_rules/Refs` defines them.

mod instances;
pub mod laws;
mod members;
mod parts;

pub use instances::method_spec_rows;
pub use members::member_ref_rows;
pub use parts::RowParts;
