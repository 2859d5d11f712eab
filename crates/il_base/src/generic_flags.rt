//! Flags of generic parameters (II.23.1.7).

/// The bits of variance.
pub const VARIANCE_MASK: u16 = 0x3;

pub const COVARIANT: u16 = 0x1;

pub const CONTRAVARIANT: u16 = 0x2;

pub const SPECIAL_CONSTRAINT_MASK: u16 = 0x1c;

pub const REFERENCE_TYPE_CONSTRAINT: u16 = 0x4;

pub const NOT_NULLABLE_VALUE_TYPE_CONSTRAINT: u16 = 0x8;

pub const DEFAULT_CONSTRUCTOR_CONSTRAINT: u16 = 0x10;
