//! The types in signatures and the flags of methods that the lists of members use.

use crate::core_table::shape::CoreSig;
use crate::core_table::tokens::{
    ARRAY, EXCEPTION, FIELD_INFO, METHOD_INFO, PROPERTY_INFO, RUNTIME_FIELD_HANDLE,
    RUNTIME_TYPE_HANDLE, TYPE,
};
use crate::element;

pub const VOID: CoreSig = CoreSig::Prim(element::VOID);

pub const BOOL: CoreSig = CoreSig::Prim(element::BOOLEAN);

pub const CHAR: CoreSig = CoreSig::Prim(element::CHAR);

pub const INT: CoreSig = CoreSig::Prim(element::I4);

pub const LONG: CoreSig = CoreSig::Prim(element::I8);

pub const STR: CoreSig = CoreSig::Prim(element::STRING);

pub const OBJ: CoreSig = CoreSig::Prim(element::OBJECT);

pub const ARR: CoreSig = CoreSig::Class(ARRAY);

pub const EXC: CoreSig = CoreSig::Class(EXCEPTION);

pub const TYPE_HANDLE: CoreSig = CoreSig::Value(RUNTIME_TYPE_HANDLE);

pub const FIELD_HANDLE: CoreSig = CoreSig::Value(RUNTIME_FIELD_HANDLE);

pub const TYP: CoreSig = CoreSig::Class(TYPE);

pub const METHOD: CoreSig = CoreSig::Class(METHOD_INFO);

pub const FIELD: CoreSig = CoreSig::Class(FIELD_INFO);

pub const PROPERTY: CoreSig = CoreSig::Class(PROPERTY_INFO);

/// `object[]`
pub const OBJS: CoreSig = CoreSig::Prims(element::OBJECT);

/// `MethodInfo[]`
pub const METHODS: CoreSig = CoreSig::Classes(METHOD_INFO);

/// `FieldInfo[]`
pub const FIELDS: CoreSig = CoreSig::Classes(FIELD_INFO);

/// `PropertyInfo[]`
pub const PROPERTIES: CoreSig = CoreSig::Classes(PROPERTY_INFO);

/// The first generic parameter of the method.
pub const METHOD_PARAM: CoreSig = CoreSig::MVar(0);

// The flags of methods (II.23.1.10).

/// public hidebysig specialname rtspecialname
pub const CONSTRUCTOR: u16 = 0x1886;
/// family hidebysig specialname rtspecialname
pub const FAMILY_CONSTRUCTOR: u16 = 0x1884;
/// public hidebysig
pub const INSTANCE: u16 = 0x0086;
/// public static hidebysig
pub const STATIC: u16 = 0x0096;
/// public virtual hidebysig newslot
pub const VIRTUAL: u16 = 0x01c6;
/// public virtual hidebysig, in the slot of a base
pub const OVERRIDE: u16 = 0x00c6;
/// public virtual hidebysig newslot abstract
pub const ABSTRACT: u16 = 0x05c6;
/// family virtual hidebysig newslot
pub const FINALIZER: u16 = 0x01c4;
/// public hidebysig specialname
pub const ACCESSOR: u16 = 0x0886;
/// public virtual hidebysig newslot specialname
pub const VIRTUAL_ACCESSOR: u16 = 0x09c6;
/// public static hidebysig specialname
pub const OPERATOR: u16 = 0x0896;
