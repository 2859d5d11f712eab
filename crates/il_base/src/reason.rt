//! Why a file has no record, or why assemblies don't link: the demand that fails first.

/// The file's DOS header, PE signature or magic is missing (II.25.2).
pub const NOT_PE: u8 = 1;

/// The file has no CLI header (II.25.2.3.3, II.25.3.3).
pub const NO_CLI: u8 = 2;

/// `COMIMAGE_FLAGS_ILONLY` is not set (II.25.3.3.1).
pub const NOT_IL_ONLY: u8 = 3;

/// The file has native code (II.25.3.3).
pub const NATIVE: u8 = 4;

/// The file ends too early.
pub const TRUNCATED: u8 = 5;

/// A directory lies outside of the sections (II.25.3).
pub const BAD_RVA: u8 = 6;

/// The metadata root has another form (II.24.2.1).
pub const BAD_ROOT: u8 = 7;

/// A stream header or the `#~` stream has another form (II.24.2.2, II.24.2.6).
pub const BAD_STREAM: u8 = 8;

/// A heap has another form, or a cell names no item of it (II.24.2.3 to II.24.2.5).
pub const BAD_HEAP: u8 = 9;

/// A table is present that isn't one of II.22's.
pub const UNKNOWN_TABLE: u8 = 10;

/// A cell names no row, or a table has too few or too many rows (II.22).
pub const ROW_OUT_OF_RANGE: u8 = 11;

/// A run of rows begins before that of the row above it (II.22).
pub const LIST_ORDER: u8 = 12;

/// A sorted table isn't sorted (II.22).
pub const SORT_ORDER: u8 = 13;

/// An earlier assembly, or the core library, has the assembly's name.
pub const DUPLICATE_ASSEMBLY: u8 = 14;

/// A type is on a cycle of bases, of interfaces, or of value types in instance fields (II.10.3, II.22.23, II.22.37).
pub const CYCLIC_TYPES: u8 = 15;

/// A type encloses itself (II.22.32).
pub const CYCLIC_NESTING: u8 = 16;

/// Two types of one name and encloser, or two members of one name and signature in a type (II.22.15, II.22.26, II.22.37).
pub const DUPLICATE_MEMBER: u8 = 17;
