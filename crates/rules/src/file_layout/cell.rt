use il_base::Text;

/// The content of a cell of a table (II.24.2.6), before the heaps are made.
#[derive(Drop)]
pub enum Cell {
    /// A number that stands in the cell: a constant, a row, a coded index or an address.
    Number(u32),
    /// An item of `#Strings` (II.24.2.3).
    Text(Text),
    /// An item of `#Blob` (II.24.2.4).
    Blob(Text),
    /// An item of `#GUID` (II.24.2.5), or none where it is empty.
    Guid(Text),
}
