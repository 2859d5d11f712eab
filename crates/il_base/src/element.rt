//! Element types in signatures (II.23.1.16).

pub const VOID: u8 = 0x01;

pub const BOOLEAN: u8 = 0x02;

pub const CHAR: u8 = 0x03;

pub const I1: u8 = 0x04;

pub const U1: u8 = 0x05;

pub const I2: u8 = 0x06;

pub const U2: u8 = 0x07;

pub const I4: u8 = 0x08;

pub const U4: u8 = 0x09;

pub const I8: u8 = 0x0a;

pub const U8: u8 = 0x0b;

pub const R4: u8 = 0x0c;

pub const R8: u8 = 0x0d;

pub const STRING: u8 = 0x0e;

pub const PTR: u8 = 0x0f;

pub const BYREF: u8 = 0x10;

pub const VALUETYPE: u8 = 0x11;

pub const CLASS: u8 = 0x12;

pub const VAR: u8 = 0x13;

pub const ARRAY: u8 = 0x14;

pub const GENERICINST: u8 = 0x15;

pub const TYPEDBYREF: u8 = 0x16;

pub const I: u8 = 0x18;

pub const U: u8 = 0x19;

pub const FNPTR: u8 = 0x1b;

pub const OBJECT: u8 = 0x1c;

pub const SZARRAY: u8 = 0x1d;

pub const MVAR: u8 = 0x1e;

pub const CMOD_REQD: u8 = 0x1f;

pub const CMOD_OPT: u8 = 0x20;

pub const SENTINEL: u8 = 0x41;

pub const PINNED: u8 = 0x45;
