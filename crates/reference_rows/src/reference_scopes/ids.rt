//! Types by their rows.

ghost use Rattle.std.specs.Prelude.{◌≡◌, IfOk};
ghost use Rattle.il_base.specs.world_model.Worlds.{type_id};

use il_base::world_model::{AsmRec, type_id};
use il_base::{NoMemory, TypeId};
use rules::link_rules::RowAt;

/// The type in a row.
pub(crate) fn id_of(recs: &[AsmRec], at: RowAt) -> Result<TypeId, NoMemory>
    ensures { IfOk result (λ id. id ≡ type_id recs.now at.asm at.row) }
{
    match type_id(recs, at.asm as usize, at.row as usize) {
        Some(id) => Ok(id),
        None => Err(NoMemory),
    }
}
