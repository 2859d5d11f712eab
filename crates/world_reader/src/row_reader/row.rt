ghost use Rattle.std.specs.Prelude.{◌≡◌, ◌<◌, ℕ, List, IfOk};
ghost use Rattle.il_base.specs.cli_format.Image.{metadata_of};
ghost use Rattle.rules.specs.record_format.Cells as cells;
ghost use Rattle.world_reader.specs.cell_reader.Cells.{HasRow};

use crate::cell_reader::Assembly;
use il_base::{NoMemory, Seq};
use std::alloc::Global;

/// A row of a table, as a record has it.
pub trait Row: Drop {
    /// The table's number.
    const TABLE: u8;

    ghost TABLE: { ℕ };

    ghost row_of: { List ℕ → ℕ → Self };

    /// The row with a number, from 1.
    fn read(alloc: Global, file: &Assembly, row: u32) -> Result<Self, NoMemory>
        requires { HasRow (metadata_of file.now) TABLE row }
        ensures { IfOk result (λ r. r ≡ row_of file.now row) };
}

/// The rows of a table.
#[tactic(auto, using(crate::proofs::lemmas::row_reader::Rows::rowing))]
pub fn all_rows<R: Row>(alloc: Global, file: &Assembly) -> Result<Seq<R>, NoMemory>
    requires { R.TABLE < 45 }
    ensures { IfOk result (λ rows. rows ≡ cells.all_rows (metadata_of file.now) R.TABLE (R.row_of file.now)) }
{
    let mut rows = Seq::new(alloc);
    for i in 0..file.count(R::TABLE) {
        let row = R::read(alloc, file, i + 1)?;
        rows.push(row)?;
    }
    Ok(rows)
}
