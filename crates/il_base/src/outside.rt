//! Forms outside the profile.

/// A floating-point number or its instruction.
pub const FLOAT: u8 = 1;
/// An opcode outside the profile.
pub const INSTRUCTION: u8 = 2;
/// A platform call, a body that isn't managed IL, or none where the method isn't abstract.
pub const PLATFORM: u8 = 3;
/// An exception filter.
pub const FILTER: u8 = 4;
/// A signature without a reading.
pub const SIGNATURE: u8 = 5;
/// Explicit layout with instance fields.
pub const LAYOUT: u8 = 6;
/// An interface method that is static or has a body.
pub const INTERFACE_BODY: u8 = 7;
/// A member of `<Module>`.
pub const GLOBAL_MEMBER: u8 = 8;
/// A type of an input whose `<Module>` has an initializer.
pub const MODULE_INITIALIZER: u8 = 9;
/// A reader of assembly identity.
pub const IDENTITY_READER: u8 = 10;
/// A body without a reading.
pub const BODY: u8 = 11;
/// A body whose stack depths disagree.
pub const STACK: u8 = 12;
/// An attribute value without a reading.
pub const ATTRIBUTE: u8 = 13;
/// A variant generic parameter.
pub const VARIANCE: u8 = 14;
/// Field bytes without a reading.
pub const FIELD_DATA: u8 = 15;
