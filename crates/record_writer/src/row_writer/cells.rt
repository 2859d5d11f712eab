//! Values as cells of their columns.

ghost use Rattle.std.specs.Prelude.{◌≡◌, IfOk};
ghost use Rattle.rules.specs.record_layout.Values as layout;

use crate::row_writer::coded::coded;
use il_base::cli_format::Column;
use il_base::world_model::row_of;
use il_base::{NoMemory, Seq};
use rules::file_layout::Cell;
use rules::record_layout::Value;
use std::alloc::Global;

/// The number of a token in a column: its row, or the coded index (II.24.2.6).
fn token_number(column: Column, token: u32) -> u32
    ensures { result ≡ layout.token_number column token }
{
    match column {
        Column::Index(_) => row_of(token),
        Column::IndexOrNone(_) => row_of(token),
        Column::Coded(index) => coded(index, token),
        Column::CodedOrNone(index) => coded(index, token),
        Column::U8 => token,
        Column::U16 => token,
        Column::U32 => token,
        Column::Text => token,
        Column::Blob => token,
        Column::Guid => token,
        Column::Run(_) => token,
    }
}

fn cell_in(column: Column, value: Value) -> Cell
    ensures { result ≡ layout.cell_in column value }
{
    match value {
        Value::Number(n) => Cell::Number(n),
        Value::Text(text) => Cell::Text(text),
        Value::Blob(blob) => Cell::Blob(blob),
        Value::Guid(guid) => Cell::Guid(guid),
        Value::Token(token) => Cell::Number(token_number(column, token)),
    }
}

/// A row, by the columns of its table.
#[tactic(auto, unfolding(rules::specs::record_layout::Values::row_cells))]
pub fn row_cells(
    alloc: Global,
    columns: &[Column],
    values: Seq<Value>,
) -> Result<Seq<Cell>, NoMemory>
    ensures { IfOk result (λ cells. cells ≡ layout.row_cells columns.now values) }
{
    let mut cells = Seq::new(alloc);
    let mut rest = columns;
    for value in values.into_vec() {
        match rest {
            [] => {}
            [column, more @ ..] => {
                cells.push(cell_in(*column, value))?;
                rest = more;
            }
        }
    }
    Ok(cells)
}
