//! The flags that a step of the machine uses. Other flags may change where an assembly is written anew (II.23.1).

/// Of a method: static, virtual, abstract (II.23.1.10).
pub const METHOD: u16 = 0x450;

/// Of a field: static, literal (II.23.1.5).
pub const FIELD: u16 = 0x50;

/// Of a type: interface, abstract, beforefieldinit (II.23.1.15).
pub const TYPE: u32 = 0x10_00a0;
