//! The TypeDef tokens that bases and signatures use, the token of the one generic method, and the flags of types.

/// The TypeDef token of Object.
pub const OBJECT: u32 = 0x0200_0002;
/// The TypeDef token of ValueType.
pub const VALUE_TYPE: u32 = 0x0200_0003;
/// The TypeDef token of Enum.
pub const ENUM: u32 = 0x0200_0004;
/// The TypeDef token of Array.
pub const ARRAY: u32 = 0x0200_0016;
/// The TypeDef token of RuntimeTypeHandle.
pub const RUNTIME_TYPE_HANDLE: u32 = 0x0200_0012;
/// The TypeDef token of RuntimeFieldHandle.
pub const RUNTIME_FIELD_HANDLE: u32 = 0x0200_0013;
/// The TypeDef token of Exception.
pub const EXCEPTION: u32 = 0x0200_0018;
/// The TypeDef token of Type.
pub const TYPE: u32 = 0x0200_0019;
/// The TypeDef token of MemberInfo.
pub const MEMBER_INFO: u32 = 0x0200_001a;
/// The TypeDef token of MethodBase.
pub const METHOD_BASE: u32 = 0x0200_001b;
/// The TypeDef token of MethodInfo.
pub const METHOD_INFO: u32 = 0x0200_001c;
/// The TypeDef token of FieldInfo.
pub const FIELD_INFO: u32 = 0x0200_001d;
/// The TypeDef token of PropertyInfo.
pub const PROPERTY_INFO: u32 = 0x0200_001e;
/// The TypeDef token of SystemException.
pub const SYSTEM_EXCEPTION: u32 = 0x0200_0023;
/// The TypeDef token of ApplicationException.
pub const APPLICATION_EXCEPTION: u32 = 0x0200_0024;
/// The TypeDef token of MemberAccessException.
pub const MEMBER_ACCESS_EXCEPTION: u32 = 0x0200_0025;
/// The TypeDef token of MissingMemberException.
pub const MISSING_MEMBER_EXCEPTION: u32 = 0x0200_0026;
/// The TypeDef token of ArgumentException.
pub const ARGUMENT_EXCEPTION: u32 = 0x0200_0027;
/// The TypeDef token of ArithmeticException.
pub const ARITHMETIC_EXCEPTION: u32 = 0x0200_0031;

// The flags of types (II.23.1.15).

/// public
pub const PUBLIC: u32 = 0x01;
/// public abstract
pub const ABSTRACT_TYPE: u32 = 0x81;
/// public sealed
pub const SEALED: u32 = 0x0101;
/// public abstract sealed: no object is of such a class
pub const STATIC_TYPE: u32 = 0x0181;
/// public abstract interface
pub const INTERFACE: u32 = 0xa1;
