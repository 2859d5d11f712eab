//! The new names of types.

ghost use Rattle.std.specs.Prelude.{◌≡◌, find, IfOk};
ghost use Rattle.std.specs.Option.{option_copied};
ghost use Rattle.il_base.specs.world_model.Worlds.{type_id};
ghost use Rattle.merged_tables.specs.merged_types.Types.{has_id, name_by};

use il_base::world_model::{AsmRec, type_id};
use il_base::{NoMemory, TypeId};
use merge_plan::outcome::NewName;
use rules::link_rules::RowAt;

/// The id of a type.
pub(crate) fn id_of(recs: &[AsmRec], at: RowAt) -> Result<TypeId, NoMemory>
    ensures { IfOk result (λ id. id ≡ type_id recs.now at.asm at.row) }
{
    match type_id(recs, at.asm as usize, at.row as usize) {
        Some(id) => Ok(id),
        None => Err(NoMemory),
    }
}

/// The new name of a type.
fn new_name(names: &[NewName], id: TypeId) -> Option<&NewName>
    ensures { option_copied result ≡ find (has_id id) names.now }
{
    names.iter().find(|n| n.typ.0 == id.0)
}

/// The name of a type in the output: its new one, or else the one that it has.
pub(crate) fn written_name<'a>(names: &'a [NewName], id: TypeId, name: &'a [u8]) -> &'a [u8]
    ensures { result.now ≡ name_by names.now id name.now }
{
    match new_name(names, id) {
        Some(new) => new.name.as_slice(),
        None => name,
    }
}
