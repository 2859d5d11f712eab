//! The numbers of the metadata tables (II.22), which are also the high bytes of their tokens (II.22.1).

/// II.22.30
pub const MODULE: u8 = 0x00;
/// II.22.38
pub const TYPE_REF: u8 = 0x01;
/// II.22.37
pub const TYPE_DEF: u8 = 0x02;
/// II.22.15
pub const FIELD: u8 = 0x04;
/// II.22.26
pub const METHOD_DEF: u8 = 0x06;
/// II.22.33
pub const PARAM: u8 = 0x08;
/// II.22.23
pub const INTERFACE_IMPL: u8 = 0x09;
/// II.22.25
pub const MEMBER_REF: u8 = 0x0a;
/// II.22.9
pub const CONSTANT: u8 = 0x0b;
/// II.22.10
pub const CUSTOM_ATTRIBUTE: u8 = 0x0c;
/// II.22.17
pub const FIELD_MARSHAL: u8 = 0x0d;
/// II.22.11
pub const DECL_SECURITY: u8 = 0x0e;
/// II.22.8
pub const CLASS_LAYOUT: u8 = 0x0f;
/// II.22.16
pub const FIELD_LAYOUT: u8 = 0x10;
/// II.22.36
pub const STAND_ALONE_SIG: u8 = 0x11;
/// II.22.12
pub const EVENT_MAP: u8 = 0x12;
/// II.22.13
pub const EVENT: u8 = 0x14;
/// II.22.35
pub const PROPERTY_MAP: u8 = 0x15;
/// II.22.34
pub const PROPERTY: u8 = 0x17;
/// II.22.28
pub const METHOD_SEMANTICS: u8 = 0x18;
/// II.22.27
pub const METHOD_IMPL: u8 = 0x19;
/// II.22.31
pub const MODULE_REF: u8 = 0x1a;
/// II.22.39
pub const TYPE_SPEC: u8 = 0x1b;
/// II.22.22
pub const IMPL_MAP: u8 = 0x1c;
/// II.22.18
pub const FIELD_RVA: u8 = 0x1d;
/// II.22.2
pub const ASSEMBLY: u8 = 0x20;
/// II.22.4
pub const ASSEMBLY_PROCESSOR: u8 = 0x21;
/// II.22.3
pub const ASSEMBLY_OS: u8 = 0x22;
/// II.22.5
pub const ASSEMBLY_REF: u8 = 0x23;
/// II.22.7
pub const ASSEMBLY_REF_PROCESSOR: u8 = 0x24;
/// II.22.6
pub const ASSEMBLY_REF_OS: u8 = 0x25;
/// II.22.19
pub const FILE: u8 = 0x26;
/// II.22.14
pub const EXPORTED_TYPE: u8 = 0x27;
/// II.22.24
pub const MANIFEST_RESOURCE: u8 = 0x28;
/// II.22.32
pub const NESTED_CLASS: u8 = 0x29;
/// II.22.20
pub const GENERIC_PARAM: u8 = 0x2a;
/// II.22.29
pub const METHOD_SPEC: u8 = 0x2b;
/// II.22.21
pub const GENERIC_PARAM_CONSTRAINT: u8 = 0x2c;
/// The high byte of a token of `#US` (III.4.16).
pub const USER_STRING: u8 = 0x70;
