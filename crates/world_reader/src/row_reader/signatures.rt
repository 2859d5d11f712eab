//! Rows with a signature (II.23.2).

ghost use Rattle.std.specs.Prelude.{◌≡◌, ◌<◌, ◌^◌, ℕ, List, length, IfOk};
ghost use Rattle.il_base.specs.cli_format.Image.{metadata_of};
ghost use Rattle.il_base.specs.declared.world_model.known.Known.{Known};
ghost use Rattle.rules.specs.record_format.Cells.{all_rows, blob_in};
ghost use Rattle.world_reader.specs.cell_reader.Cells.{HasRow};
ghost use Rattle.world_reader.specs.row_reader.Faults.{IsMet, OfSignatures};

use crate::cell_reader::Assembly;
use crate::row_reader::faults::{Fault, Faults, Met};
use il_base::world_model::Known;
use il_base::{NoMemory, Seq};
use std::alloc::Global;

/// A row that names the blob of a signature.
pub trait HasSignature: Drop {
    /// The table's number.
    const TABLE: u8;
    /// The column of the signature's blob, from 0.
    const COLUMN: usize;
    /// The value of such a blob.
    type Signature: Drop;

    ghost TABLE: { ℕ };

    ghost COLUMN: { ℕ };

    ghost of_blob: { List ℕ → Known Self.Signature };

    /// The value of a blob, or why it has none.
    fn read_signature(alloc: Global, blob: &[u8]) -> Result<Known<Self::Signature>, NoMemory>
        requires { length blob.now < 2 ^ 32 }
        ensures { IfOk result (λ k. k ≡ of_blob blob.now) };
}

/// Such a row, as a record has it.
pub trait SignatureRow: HasSignature {
    ghost row_of: { List ℕ → ℕ → Self };

    /// The row with a number, from 1. A part that was met without a meaning isn't read again.
    fn read(alloc: Global, file: &Assembly, met: &mut Met, row: u32) -> Result<Self, NoMemory>
        requires row { HasRow (metadata_of file.now) Self.TABLE row }
        requires met { IsMet Self.of_blob file.now met.old }
        ensures { IfOk result (λ r. (r ≡ row_of file.now row) × IsMet Self.of_blob file.now met.new) };
}

/// The signature of a row. A blob whose fault is known isn't read again.
#[tactic(auto, unfolding(rules::specs::record_format::Cells::blob_in))]
pub fn signature_of<R: HasSignature>(
    alloc: Global,
    file: &Assembly,
    faults: &mut Faults,
    row: u32,
) -> Result<Known<R::Signature>, NoMemory>
    requires row { HasRow (metadata_of file.now) R.TABLE row }
    requires known { OfSignatures R.of_blob (metadata_of file.now) faults.old }
    ensures { IfOk result (λ k. (k ≡ R.of_blob (blob_in (metadata_of file.now) R.TABLE R.COLUMN row)) × OfSignatures R.of_blob (metadata_of file.now) faults.new) }
{
    let number = file.word(R::TABLE, R::COLUMN, row);
    if let Some(fault) = faults.get(number) {
        return Ok(Known::Bad(fault.why));
    }
    let signature = R::read_signature(alloc, file.blob(R::TABLE, R::COLUMN, row))?;
    if let Known::Bad(why) = &signature {
        let fault = Fault { why: *why, at: 0 };
        faults.put(number, fault)?;
    }
    Ok(signature)
}

/// The rows of a table.
#[tactic(auto, using(crate::proofs::lemmas::row_reader::Rows::rowing))]
pub fn signature_rows<R: SignatureRow>(alloc: Global, file: &Assembly) -> Result<Seq<R>, NoMemory>
    requires { R.TABLE < 45 }
    ensures { IfOk result (λ rows. rows ≡ all_rows (metadata_of file.now) R.TABLE (R.row_of file.now)) }
{
    let mut rows = Seq::new(alloc);
    let mut met = Met::nothing(alloc);
    for i in 0..file.count(R::TABLE) {
        let row = R::read(alloc, file, &mut met, i + 1)?;
        rows.push(row)?;
    }
    Ok(rows)
}
