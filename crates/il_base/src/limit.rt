//! The numbers of limits, which the answer `limit` gives.

/// Files: at most 64.
pub const FILES: u8 = 1;
/// The length of a file in bytes: at most 67108864.
pub const FILE_LENGTH: u8 = 2;
/// The sum of the lengths of all files in bytes: at most 536870912.
pub const TOTAL_LENGTH: u8 = 3;
/// The length of a descriptor in bytes: at most 1048576.
pub const DESCRIPTOR_LENGTH: u8 = 4;
/// Rows of one table: at most 1048576.
pub const ROWS: u8 = 5;
/// Slots times instructions times sources of a body: at most 2147483648.
pub const FLOW: u8 = 6;
/// The length of the written file in bytes: at most 268435456.
pub const OUTPUT_LENGTH: u8 = 7;
/// The length of the input of a run in bytes: at most 67108864.
pub const INPUT_LENGTH: u8 = 8;
