//! Flags of fields (II.23.1.5).

/// The bits of accessibility.
pub const ACCESS_MASK: u16 = 0x7;

pub const COMPILER_CONTROLLED: u16 = 0x0;

pub const PRIVATE: u16 = 0x1;

pub const FAM_AND_ASSEM: u16 = 0x2;

pub const ASSEMBLY: u16 = 0x3;

pub const FAMILY: u16 = 0x4;

pub const FAM_OR_ASSEM: u16 = 0x5;

pub const PUBLIC: u16 = 0x6;

pub const STATIC: u16 = 0x10;

pub const INIT_ONLY: u16 = 0x20;

pub const LITERAL: u16 = 0x40;

pub const NOT_SERIALIZED: u16 = 0x80;

pub const HAS_FIELD_RVA: u16 = 0x100;

pub const SPECIAL_NAME: u16 = 0x200;

pub const RT_SPECIAL_NAME: u16 = 0x400;

pub const HAS_FIELD_MARSHAL: u16 = 0x1000;

pub const PINVOKE_IMPL: u16 = 0x2000;

pub const HAS_DEFAULT: u16 = 0x8000;
