//! What a method is to a property or an event (II.23.1.12).

pub const SETTER: u16 = 0x1;

pub const GETTER: u16 = 0x2;

pub const OTHER: u16 = 0x4;

pub const ADD_ON: u16 = 0x8;

pub const REMOVE_ON: u16 = 0x10;

pub const FIRE: u16 = 0x20;
