//! How a method is implemented (II.23.1.11).

/// The bits of the code type.
pub const CODE_TYPE_MASK: u16 = 0x3;

pub const IL: u16 = 0x0;

pub const NATIVE: u16 = 0x1;

pub const OPTIL: u16 = 0x2;

pub const RUNTIME: u16 = 0x3;

pub const UNMANAGED: u16 = 0x4;

pub const NO_INLINING: u16 = 0x8;

pub const FORWARD_REF: u16 = 0x10;

pub const SYNCHRONIZED: u16 = 0x20;

pub const NO_OPTIMIZATION: u16 = 0x40;

pub const PRESERVE_SIG: u16 = 0x80;

pub const INTERNAL_CALL: u16 = 0x1000;
