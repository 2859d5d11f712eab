//! The trimmed file, and the keep list.

ghost use Rattle.std.specs.Prelude.{◌≡◌, None, IfOk, IfErr};
ghost use Rattle.rules.specs.link_rules.Linked.{IsWorld};
ghost use Rattle.rules.specs.mark_rules.KeepList.{keep_list};
ghost use Rattle.mark_parts.specs.mark_tables.Assemblies.{all_of, IsMarker};
ghost use Rattle.merge_plan.specs.Kept.{kept_by};
ghost use Rattle.rules.specs.record_layout.Laid.{laid};
ghost use Rattle.rules.specs.record_layout.Limits.{limit_of};
ghost use Rattle.record_writer.specs.CanWrite.{CanWrite};
ghost use Rattle.record_writer.specs.Written.{Refuses, rows_over};

use il_base::world_model::{AsmRec, World};
use il_base::{NoMemory, Seq, Text};
use keep_lists::lists::keep_list;
use mark_parts::mark_tables::marker::Marker;
use merge_plan::KeptItems;
use record_writer::{WriteError, write};
use std::alloc::Global;

/// The bytes of the file of a record.
pub(crate) fn file_of(alloc: Global, rec: &AsmRec) -> Result<Text, WriteError>
    requires { rows_over rec.now ≡ None → CanWrite rec.now }
    ensures is { IfOk result (λ bytes. bytes ≡ laid rec.now) }
    ensures can { IfOk result (λ _. CanWrite rec.now) }
    ensures within { IfOk result (λ _. limit_of rec.now ≡ None) }
    ensures refused { IfErr result (Refuses rec.now) }
{
    let mut bytes = Vec::new(alloc);
    match write(alloc, rec, &mut bytes) {
        Err(error) => Err(error),
        Ok(()) => Ok(Seq::from_vec(bytes)),
    }
}

/// The keep list of kept items, by the tables of their world.
fn list_with(alloc: Global, marker: &Marker<'_>, kept: &KeptItems) -> Result<Text, NoMemory>
    requires { IsMarker marker.now }
    ensures { IfOk result (λ text. text ≡ keep_list (all_of marker.now) (kept_by kept.now)) }
{
    let text = keep_list(alloc, marker, kept)?;
    Ok(text)
}

/// The keep list of a world's kept items.
pub(crate) fn list_of(alloc: Global, world: &World, kept: &KeptItems) -> Result<Text, NoMemory>
    requires { IsWorld world.now }
    ensures { IfOk result (λ text. text ≡ keep_list world.now.recs (kept_by kept.now)) }
{
    let marker = Marker::of(alloc, world)?;
    let text = list_with(alloc, &marker, kept)?;
    Ok(text)
}
