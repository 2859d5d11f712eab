//! The core library as a record: the types and members that stand in for it, as data, and the record whose rows they
//! are. `core` gives that record, `specs/core_table/Record` defines it.

mod forms;
mod kinds;
pub mod laws;
mod members;
mod methods;
mod names;
mod record;
mod reflection_methods;
mod rows;
mod shape;
mod text_methods;
mod tokens;
mod type_rows;
mod types;

pub use kinds::{CoreKind, OwnedMethod, core_kind, kind_of};
pub use names::CoreName;
pub use record::core;
pub use shape::{CoreField, CoreMembers, CoreMethod, CoreParams, CoreSig, CoreType};
pub use tokens::{
    APPLICATION_EXCEPTION, ARGUMENT_EXCEPTION, ARITHMETIC_EXCEPTION, ARRAY, ENUM, EXCEPTION,
    FIELD_INFO, MEMBER_ACCESS_EXCEPTION, MEMBER_INFO, METHOD_BASE, METHOD_INFO,
    MISSING_MEMBER_EXCEPTION, OBJECT, PROPERTY_INFO, RUNTIME_FIELD_HANDLE, RUNTIME_TYPE_HANDLE,
    STATIC_TYPE, SYSTEM_EXCEPTION, TYPE, VALUE_TYPE,
};
pub use types::{METHOD_COUNT, TYPE_COUNT, TYPES};
