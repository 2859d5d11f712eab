//! Rows that belong to members. Indices are tokens (the table's number in the high byte), 0 for none; names are UTF-8.

use crate::Text;
use crate::world_model::known::Known;

/// A row of Constant (II.22.9).
#[derive(Drop)]
pub struct ConstantRow {
    /// An element type.
    pub kind: u8,
    /// A Field, Param or Property token.
    pub parent: u32,
    pub value: Text,
}

/// A row of CustomAttribute (II.22.10).
#[derive(Drop)]
pub struct CustomAttributeRow {
    pub parent: u32,
    /// A MethodDef or MemberRef token.
    pub ctor: u32,
    pub value: Text,
}

/// A row of FieldMarshal (II.22.17).
#[derive(Drop)]
pub struct FieldMarshalRow {
    /// A Field or Param token.
    pub parent: u32,
    pub native_type: Text,
}

/// A row of DeclSecurity (II.22.11).
#[derive(Drop)]
pub struct DeclSecurityRow {
    pub action: u16,
    /// A TypeDef, MethodDef or Assembly token.
    pub parent: u32,
    pub permission_set: Text,
}

/// A row of FieldLayout (II.22.16).
#[derive(Drop)]
pub struct FieldLayoutRow {
    /// The offset in bytes.
    pub offset: u32,
    /// A Field token.
    pub field: u32,
}

/// A row of FieldRva (II.22.18).
#[derive(Drop)]
pub struct FieldRvaRow {
    /// The address of the bytes in the image.
    pub rva: u32,
    /// A Field token.
    pub field: u32,
    /// As many bytes as the field's type has.
    pub bytes: Known<Text>,
}

/// A row of ImplMap (II.22.22).
#[derive(Drop)]
pub struct ImplMapRow {
    pub mapping_flags: u16,
    /// A Field or MethodDef token.
    pub member_forwarded: u32,
    pub import_name: Text,
    /// A ModuleRef token, 0 for none.
    pub import_scope: u32,
}

/// A row of ManifestResource (II.22.24).
#[derive(Drop)]
pub struct ManifestResourceRow {
    pub offset: u32,
    pub flags: u32,
    pub name: Text,
    /// A File, AssemblyRef or ExportedType token, 0 for none.
    pub implementation: u32,
}

/// A row of File (II.22.19).
#[derive(Drop)]
pub struct FileRow {
    pub flags: u32,
    pub name: Text,
    pub hash_value: Text,
}
