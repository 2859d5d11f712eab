//! The data of the core table: types, fields, methods and signatures.

use crate::core_table::names::CoreName;

/// A type in a member's signature (II.23.2.12).
#[derive(Clone, Copy, Debug, PartialEq, Eq)]
pub enum CoreSig {
    /// A primitive, `string`, `object` or `void`, by its element type (II.23.1.16).
    Prim(u8),
    /// A class of the core library, by its TypeDef token.
    Class(u32),
    /// A value type of the core library, by its TypeDef token.
    Value(u32),
    /// A vector of a primitive, `string` or `object`.
    Prims(u8),
    /// A vector of a class.
    Classes(u32),
    /// A generic parameter of the method, counted from 0.
    MVar(u32),
}

/// The types of a method's parameters.
#[derive(Clone, Copy, Debug, PartialEq, Eq)]
pub enum CoreParams {
    Zero,
    One(CoreSig),
    Two(CoreSig, CoreSig),
    Three(CoreSig, CoreSig, CoreSig),
    Four(CoreSig, CoreSig, CoreSig, CoreSig),
}

/// A field.
#[derive(Clone, Copy, Debug, PartialEq, Eq)]
pub struct CoreField {
    pub name: CoreName,
    /// II.23.1.5.
    pub flags: u16,
    pub signature: CoreSig,
}

/// A method. It has `this` where its flags don't have static.
#[derive(Clone, Copy, Debug, PartialEq, Eq)]
pub struct CoreMethod {
    pub name: CoreName,
    /// II.23.1.10.
    pub flags: u16,
    /// How many generic parameters it has (II.9).
    pub type_params: u32,
    pub ret: CoreSig,
    pub params: CoreParams,
}

/// The members of a type, by a name for each list of members.
#[derive(Clone, Copy, Debug, PartialEq, Eq)]
pub enum CoreMembers {
    NoMethods,
    Object,
    ValueType,
    Enum,
    Primitive,
    Int32,
    String,
    Array,
    Console,
    Exception,
    /// The three constructors of Exception.
    Constructors,
    Type,
    MemberInfo,
    MethodBase,
    MethodInfo,
    FieldInfo,
    PropertyInfo,
    Activator,
    RuntimeHelpers,
    IDisposable,
    Attribute,
}

/// A type.
#[derive(Clone, Copy, Debug, PartialEq, Eq)]
pub struct CoreType {
    pub name: CoreName,
    pub namespace: CoreName,
    /// II.23.1.15.
    pub flags: u32,
    /// A TypeDef token, 0 for none.
    pub extends: u32,
    pub members: CoreMembers,
}
