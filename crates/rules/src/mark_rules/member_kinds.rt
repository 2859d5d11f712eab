//! Kinds of members, as `DynamicallyAccessedMemberTypes` numbers them.

/// The public constructor without parameters.
pub const PUBLIC_PARAMETERLESS_CONSTRUCTOR: u32 = 0x1;
/// The public constructors with parameters. With the one without it is `PublicConstructors`.
pub const OTHER_PUBLIC_CONSTRUCTORS: u32 = 0x2;

pub const NON_PUBLIC_CONSTRUCTORS: u32 = 0x4;

pub const PUBLIC_METHODS: u32 = 0x8;

pub const NON_PUBLIC_METHODS: u32 = 0x10;

pub const PUBLIC_FIELDS: u32 = 0x20;

pub const NON_PUBLIC_FIELDS: u32 = 0x40;

pub const PUBLIC_NESTED_TYPES: u32 = 0x80;

pub const NON_PUBLIC_NESTED_TYPES: u32 = 0x100;

pub const PUBLIC_PROPERTIES: u32 = 0x200;

pub const NON_PUBLIC_PROPERTIES: u32 = 0x400;

pub const PUBLIC_EVENTS: u32 = 0x800;

pub const NON_PUBLIC_EVENTS: u32 = 0x1000;

pub const INTERFACES: u32 = 0x2000;
/// Every kind, also those without a name.
pub const ALL: u32 = 0xffff_ffff;
