//! Rows of any table.

ghost use Rattle.std.specs.Prelude.{◌≡◌, ℕ, List, map, All, IfOk};
ghost use Rattle.il_base.specs.cli_format.Columns.{columns_of};
ghost use Rattle.rules.specs.declared.record_layout.value.Value.{Value};
ghost use Rattle.rules.specs.declared.record_layout.value.Value.TheVariants as value;
ghost use Rattle.rules.specs.record_layout.Values as layout;

use crate::row_writer::cells::row_cells;
use il_base::cli_format::columns;
use il_base::{NoMemory, Seq, Text};
use rules::file_layout::Cell;
use rules::record_layout::Value;
use std::alloc::Global;

/// A row of a table that is written.
pub trait Row {
    /// The table's number.
    const TABLE: u8;

    ghost TABLE: { ℕ };

    ghost values_of: { Self → List Value };

    ghost CanWrite: { Self → Type 0 };

    /// The row's values, in the order of its columns.
    fn values(&self, alloc: Global) -> Result<Seq<Value>, NoMemory>
        requires { CanWrite self.now }
        ensures { IfOk result (λ values. values ≡ values_of self.now) };
}

/// Some values as a list.
pub fn listed<const N: usize>(alloc: Global, values: [Value; N]) -> Result<Seq<Value>, NoMemory>
    ensures { IfOk result (λ row. row ≡ values.entry) }
{
    Ok(Seq::from_vec(Vec::from_array(alloc, values)?))
}

/// A text, copied.
pub fn text(alloc: Global, text: &Text) -> Result<Value, NoMemory>
    ensures { IfOk result (λ v. v ≡ value.Text text.now) }
{
    Ok(Value::Text(Text::from_slice(alloc, text.as_slice())?))
}

/// A blob, copied.
pub fn blob(alloc: Global, blob: &Text) -> Result<Value, NoMemory>
    ensures { IfOk result (λ v. v ≡ value.Blob blob.now) }
{
    Ok(Value::Blob(Text::from_slice(alloc, blob.as_slice())?))
}

/// A GUID, copied.
pub fn guid(alloc: Global, guid: &Text) -> Result<Value, NoMemory>
    ensures { IfOk result (λ v. v ≡ value.Guid guid.now) }
{
    Ok(Value::Guid(Text::from_slice(alloc, guid.as_slice())?))
}

/// The rows of a table as cells.
pub fn table<R: Row>(alloc: Global, rows: &[R]) -> Result<Seq<Seq<Cell>>, NoMemory>
    requires { All R.CanWrite rows.now }
    ensures { IfOk result (λ cells. cells ≡ map (layout.row_cells (columns_of R.TABLE)) (map R.values_of rows.now)) }
{
    let mut cells = Seq::new(alloc);
    for row in rows {
        let values = row.values(alloc)?;
        cells.push(row_cells(alloc, columns(R::TABLE), values)?)?;
    }
    Ok(cells)
}
