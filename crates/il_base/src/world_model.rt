//! The data of a world: assemblies as records of their tables, and what references name once they are resolved.
//! `specs/world_model/` defines what tokens and signatures name in a world, type expressions' substitution, levels and equality, and
//! what the rows of a record keep.

mod assemblies;
mod core_refs;
mod expr;
mod extras;
mod known;
mod laws;
mod links;
mod lookup;
mod members;
mod prims;
mod record;
mod sig_exprs;
mod sig_names;
mod tokens;
mod type_exprs;
mod type_tests;
mod types;
mod world;

pub use assemblies::{
    AssemblyOsRow, AssemblyProcessorRow, AssemblyRefOsRow, AssemblyRefProcessorRow, AssemblyRefRow,
    AssemblyRow, ModuleRefRow,
};
pub use core_refs::{is_core_name, is_core_scope};
pub use expr::{FieldUse, MemberSig, MethodUse, TypeExpr};
pub use extras::{
    ConstantRow, CustomAttributeRow, DeclSecurityRow, FieldLayoutRow, FieldMarshalRow, FieldRvaRow,
    FileRow, ImplMapRow, ManifestResourceRow,
};
pub use known::{BadKind, Known};
pub use laws::{same_expr_is_equality, type_specs_are_not_asked};
pub use links::{LinkKind, link_at};
pub use lookup::{added_link_at, type_link_at};
pub use members::{
    EventMapRow, EventRow, FieldRow, MemberRefRow, MethodDefRow, MethodImplRow, MethodSemanticsRow,
    MethodSpecRow, ParamRow, PropertyMapRow, PropertyRow, StandAloneSigRow,
};
pub use prims::{prim_of, prim_type, type_id};
pub use record::{AsmRec, UserText};
pub use sig_exprs::expr_by;
pub use tokens::{FIRST_TYPE_DEF, index_in, row_of, table_of, token_of, wide_token};
pub use types::{
    ClassLayoutRow, ExportedTypeRow, GenericParamConstraintRow, GenericParamRow, InterfaceImplRow,
    ModuleRow, NestedClassRow, TypeDefRow, TypeRefRow, TypeSpecRow,
};
pub use world::{FieldLink, Home, MethodLink, TypeLink, World};
