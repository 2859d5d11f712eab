//! Rows with an RVA: methods with bodies (II.22.26), and the bytes of fields (II.22.18).

ghost use Rattle.std.specs.Prelude.{◌≡◌, ℕ, List, map, All, IfOk};
ghost use Rattle.il_base.specs.cli_format.Columns.{columns_of};
ghost use Rattle.rules.specs.declared.record_layout.value.Value.{Value};
ghost use Rattle.rules.specs.record_layout.Tables.{with_rvas};
ghost use Rattle.rules.specs.record_layout.Values as layout;

use crate::row_writer::cells::row_cells;
use il_base::cli_format::columns;
use il_base::{NoMemory, Seq};
use rules::file_layout::Cell;
use rules::record_layout::Value;
use std::alloc::Global;

/// A row of a table that is written with an RVA.
pub trait Placed {
    /// The table's number.
    const TABLE: u8;

    ghost TABLE: { ℕ };

    ghost values_of: { ℕ → Self → List Value };

    ghost CanWrite: { Self → Type 0 };

    /// The row's values, in the order of its columns, with an address in the image.
    fn values(&self, alloc: Global, rva: u32) -> Result<Seq<Value>, NoMemory>
        requires { CanWrite self.now }
        ensures { IfOk result (λ values. values ≡ values_of rva self.now) };
}

/// The rows of a table as cells, each with its address.
#[tactic(auto, unfolding(rules::specs::record_layout::Tables::with_rvas))]
pub fn placed_table<R: Placed>(
    alloc: Global,
    rvas: &[u32],
    rows: &[R],
) -> Result<Seq<Seq<Cell>>, NoMemory>
    requires { All R.CanWrite rows.now }
    ensures { IfOk result (λ cells. cells ≡ map (layout.row_cells (columns_of R.TABLE)) (with_rvas R.values_of rvas.now rows.now)) }
{
    let mut cells = Seq::new(alloc);
    let mut rest = rvas;
    for row in rows {
        match rest {
            [] => {}
            [rva, more @ ..] => {
                let values = row.values(alloc, *rva)?;
                cells.push(row_cells(alloc, columns(R::TABLE), values)?)?;
                rest = more;
            }
        }
    }
    Ok(cells)
}
