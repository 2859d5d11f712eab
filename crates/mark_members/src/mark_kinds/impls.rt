//! Interface rows of a type and its bases (II.22.23).

ghost use Rattle.std.specs.Prelude.{◌≡◌, ◌++◌, [], slice_get, IfOk, OnOk};
ghost use Rattle.std.specs.List.{flat_map};
ghost use Rattle.rules.specs.mark_rules.Members.{impls_of_type, impls_by};
ghost use Rattle.mark_parts.specs.mark_tables.Assemblies.{rec_of, all_of, IsMarker, IsAssembly};
ghost use Rattle.mark_members.specs.mark_kinds.Kinds.{impl_at};

use crate::mark_kinds::lineage::lineage;
use il_base::world_model::{AsmRec, token_of};
use il_base::{NoMemory, has_type_flag, table};
use mark_parts::mark_tables::marker::Marker;
use rules::link_rules::RowAt;
use rules::mark_rules::member_kinds;
use std::alloc::Global;

/// Adds a row of InterfaceImpl, from 0, where it is there.
fn add_impl(rec: &AsmRec, asm: u32, k: u32, found: &mut Vec<RowAt>) -> Result<(), NoMemory>
    ensures { OnOk result (found.new.items ≡ found.old.items ++ impl_at rec.now asm k) }
{
    match rec.interface_impl.get(k as usize) {
        None => Ok(()),
        Some(_row) => {
            found.push(RowAt { asm, row: k })?;
            Ok(())
        }
    }
}

/// Adds rows of InterfaceImpl, from 0.
fn add_impls(rec: &AsmRec, asm: u32, rows: &[u32], found: &mut Vec<RowAt>) -> Result<(), NoMemory>
    ensures { OnOk result (found.new.items ≡ found.old.items ++ flat_map (impl_at rec.now asm) rows.now) }
{
    for k in rows {
        add_impl(rec, asm, *k, found)?;
    }
    Ok(())
}

/// Adds the interface rows of a type itself.
fn add_impls_of_type(marker: &Marker<'_>, at: RowAt, found: &mut Vec<RowAt>) -> Result<(), NoMemory>
    requires { IsMarker marker.now }
    ensures { OnOk result (found.new.items ≡ found.old.items ++ impls_of_type (all_of marker.now) at) }
{
    let Some(asm) = marker.assembly_at(at.asm) else {
        return Ok(());
    };
    let token = token_of(table::TYPE_DEF, at.row as usize)?;
    let rows = asm.of_types.interfaces.rows_with(token);
    add_impls(asm.scope.rec, at.asm, rows, found)?;
    Ok(())
}

/// The interface rows of these types.
fn impls_along(alloc: Global, marker: &Marker<'_>, types: &[RowAt]) -> Result<Vec<RowAt>, NoMemory>
    requires { IsMarker marker.now }
    ensures { IfOk result (λ rows. rows.items ≡ flat_map (impls_of_type (all_of marker.now)) types.now) }
{
    let mut found = Vec::new(alloc);
    for c in types {
        add_impls_of_type(marker, *c, &mut found)?;
    }
    Ok(found)
}

/// The interface rows of a type and its bases, where kinds name them.
#[tactic(auto, unfolding(rules::specs::mark_rules::Members::impls_by))]
pub fn impls_by(
    alloc: Global,
    marker: &Marker<'_>,
    kinds: u32,
    t: RowAt,
) -> Result<Vec<RowAt>, NoMemory>
    requires { IsMarker marker.now }
    ensures { IfOk result (λ rows. rows.items ≡ impls_by (all_of marker.now) kinds t) }
{
    if !has_type_flag(kinds, member_kinds::INTERFACES) {
        return Ok(Vec::new(alloc));
    }
    let types = lineage(alloc, marker, t)?;
    let found = impls_along(alloc, marker, types.as_slice())?;
    Ok(found)
}
