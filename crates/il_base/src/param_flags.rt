//! Flags of parameters (II.23.1.13).

pub const IN: u16 = 0x1;

pub const OUT: u16 = 0x2;

pub const OPTIONAL: u16 = 0x10;

pub const HAS_DEFAULT: u16 = 0x1000;

pub const HAS_FIELD_MARSHAL: u16 = 0x2000;
