/// A row of a table of one of several assemblies.
#[derive(Clone, Copy, Debug, PartialEq, Eq)]
pub struct RowAt {
    /// The assembly, from 0.
    pub asm: u32,
    /// The row, from 0.
    pub row: u32,
}
