//! Definitions of linking: the types and members that references name, the first demand on several assemblies that fails, and the
//! world that they make. `specs/link_rules/` has them; here is the data that they speak of.

mod core_type_name;
mod link_error;
mod member_type;
mod row_at;

pub use core_type_name::CoreTypeName;
pub use link_error::LinkError;
pub use member_type::MethodType;
pub use row_at::RowAt;
