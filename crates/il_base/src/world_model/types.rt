//! Rows on types. Indices are tokens (the table's number in the high byte), 0 for none; names are UTF-8.

use crate::world_model::known::Known;
use crate::{Sig, Text};

/// A row of Module (II.22.30).
#[derive(Drop)]
pub struct ModuleRow {
    pub generation: u16,
    pub name: Text,
    /// 16 bytes, or none
    pub mvid: Text,
    pub enc_id: Text,
    pub enc_base_id: Text,
}

/// A row of TypeRef (II.22.38).
#[derive(Drop)]
pub struct TypeRefRow {
    /// A Module, ModuleRef, AssemblyRef or TypeRef token, 0 for none.
    pub resolution_scope: u32,
    pub name: Text,
    pub namespace: Text,
}

/// A row of TypeDef (II.22.37).
#[derive(Drop)]
pub struct TypeDefRow {
    /// II.23.1.15.
    pub flags: u32,
    pub name: Text,
    pub namespace: Text,
    /// A TypeDef, TypeRef or TypeSpec token, 0 for none.
    pub extends: u32,
    /// The first Field row of the type, from 1.
    pub field_list_first: u32,
    /// The row past its last.
    pub field_list_end: u32,
    /// The first MethodDef row of the type, from 1.
    pub method_list_first: u32,
    /// The row past its last.
    pub method_list_end: u32,
}

/// A row of InterfaceImpl (II.22.23).
#[derive(Drop)]
pub struct InterfaceImplRow {
    /// A TypeDef token.
    pub class: u32,
    /// A TypeDef, TypeRef or TypeSpec token.
    pub interface: u32,
}

/// A row of NestedClass (II.22.32).
#[derive(Drop)]
pub struct NestedClassRow {
    /// A TypeDef token.
    pub nested_class: u32,
    /// A TypeDef token.
    pub enclosing_class: u32,
}

/// A row of ClassLayout (II.22.8).
#[derive(Drop)]
pub struct ClassLayoutRow {
    pub packing_size: u16,
    /// Bytes.
    pub class_size: u32,
    /// A TypeDef token.
    pub parent: u32,
}

/// A row of TypeSpec (II.22.39).
#[derive(Drop)]
pub struct TypeSpecRow {
    pub signature: Known<Sig>,
}

/// A row of ExportedType (II.22.14).
#[derive(Drop)]
pub struct ExportedTypeRow {
    pub flags: u32,
    pub type_def_id: u32,
    pub name: Text,
    pub namespace: Text,
    /// A File, AssemblyRef or ExportedType token, 0 for none.
    pub implementation: u32,
}

/// A row of GenericParam (II.22.20).
#[derive(Drop)]
pub struct GenericParamRow {
    /// From 0.
    pub number: u16,
    pub flags: u16,
    /// A TypeDef or MethodDef token.
    pub owner: u32,
    pub name: Text,
}

/// A row of GenericParamConstraint (II.22.21).
#[derive(Drop)]
pub struct GenericParamConstraintRow {
    /// A GenericParam token.
    pub owner: u32,
    /// A TypeDef, TypeRef or TypeSpec token.
    pub constraint: u32,
}
