use il_base::Text;

/// The value of a row of a record in a column (II.22).
#[derive(Drop)]
pub enum Value {
    /// A constant, an address, or the first row of a run, counted from 1.
    Number(u32),
    /// A text, without the zero after it.
    Text(Text),
    /// A blob, without its length.
    Blob(Text),
    /// 16 bytes, or none.
    Guid(Text),
    /// The token of a row, 0 for none.
    Token(u32),
}
