//! Flags of types (II.23.1.15).

/// The bits of visibility.
pub const VISIBILITY_MASK: u32 = 0x7;

pub const NOT_PUBLIC: u32 = 0x0;

pub const PUBLIC: u32 = 0x1;

pub const NESTED_PUBLIC: u32 = 0x2;

pub const NESTED_PRIVATE: u32 = 0x3;

pub const NESTED_FAMILY: u32 = 0x4;

pub const NESTED_ASSEMBLY: u32 = 0x5;

pub const NESTED_FAM_AND_ASSEM: u32 = 0x6;

pub const NESTED_FAM_OR_ASSEM: u32 = 0x7;
/// The bits of layout.
pub const LAYOUT_MASK: u32 = 0x18;

pub const SEQUENTIAL_LAYOUT: u32 = 0x8;

pub const EXPLICIT_LAYOUT: u32 = 0x10;

pub const INTERFACE: u32 = 0x20;

pub const ABSTRACT: u32 = 0x80;

pub const SEALED: u32 = 0x100;

pub const SPECIAL_NAME: u32 = 0x400;

pub const RT_SPECIAL_NAME: u32 = 0x800;

pub const IMPORT: u32 = 0x1000;

pub const SERIALIZABLE: u32 = 0x2000;

pub const STRING_FORMAT_MASK: u32 = 0x30000;

pub const HAS_SECURITY: u32 = 0x40000;

pub const BEFORE_FIELD_INIT: u32 = 0x100000;

pub const IS_TYPE_FORWARDER: u32 = 0x200000;
