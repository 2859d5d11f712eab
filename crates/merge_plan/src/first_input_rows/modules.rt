//! The Module rows of the output (II.22.30).

ghost use Rattle.std.specs.Prelude.{◌≡◌, IfOk};

use il_base::world_model::ModuleRow;
use il_base::{NoMemory, Seq};
use std::alloc::Global;

fn copied(alloc: Global, row: &ModuleRow) -> Result<ModuleRow, NoMemory>
    ensures { IfOk result (λ made. made ≡ row.now) }
{
    let name = Seq::from_slice(alloc, row.name.as_slice())?;
    let mvid = Seq::from_slice(alloc, row.mvid.as_slice())?;
    let enc_id = Seq::from_slice(alloc, row.enc_id.as_slice())?;
    let enc_base_id = Seq::from_slice(alloc, row.enc_base_id.as_slice())?;
    Ok(ModuleRow {
        generation: row.generation,
        name,
        mvid,
        enc_id,
        enc_base_id,
    })
}

/// The rows of the output, which are the first input's.
pub fn module_rows(alloc: Global, rows: &[ModuleRow]) -> Result<Seq<ModuleRow>, NoMemory>
    ensures { IfOk result (λ made. made ≡ rows.now) }
{
    let mut made = Seq::new(alloc);
    for row in rows {
        let copy = copied(alloc, row)?;
        made.push(copy)?;
    }
    Ok(made)
}
