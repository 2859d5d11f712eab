//! What the interface rows of a type refer to (II.22.23).

ghost use Rattle.std.specs.Prelude.{◌≡◌, ◌++◌, [], slice_get, OnOk};
ghost use Rattle.std.specs.List.{flat_map};
ghost use Rattle.std.specs.Option.{option_map_or};
ghost use Rattle.mark_parts.specs.mark_tables.Assemblies.{all_of};
ghost use Rattle.rules.specs.merge_rules.Order.{met_interfaces};
ghost use Rattle.merge_plan.specs.Kept.{kept_by};
ghost use Rattle.token_keys.specs.Keys.{IsKeys, recs_of, place_of, rec_of};
ghost use Rattle.token_keys.specs.world_keys.Keys.{IsWorldKeys};
ghost use Rattle.restrict.specs.met_order.Owned.{met_kept_interface};

use crate::met_parts::tokens::meet_type;
use il_base::world_model::{InterfaceImplRow, token_of};
use il_base::{NoMemory, table};
use merge_plan::{KeptItems, Kind, is_kept};
use rules::link_rules::RowAt;
use std::alloc::Global;
use token_keys::keys::Keys;
use token_keys::met_forms::Mets;
use token_keys::world_keys::WorldKeys;

/// Meets the interface of a row, where the row is kept.
#[tactic(auto, using(crate::proofs::lemmas::met_order::Lists::none_more))]
fn meet_kept(
    alloc: Global,
    keys: &Keys<'_>,
    kept: &KeptItems,
    k: u32,
    row: &InterfaceImplRow,
    mets: &mut Mets,
) -> Result<(), NoMemory>
    requires { IsKeys keys.now }
    ensures { OnOk result (mets.new ≡ mets.old ++ met_kept_interface (recs_of keys.now) (kept_by kept.now) (place_of keys.now) (rec_of keys.now) k row.now) }
{
    let at = RowAt {
        asm: keys.asm.scope.asm,
        row: k,
    };
    let marker = keys.marker;
    let recs = marker.tables.world.recs.as_slice();
    let stays = is_kept(recs, Kind::Interfaces, kept, at)?;
    if stays {
        return meet_type(alloc, keys, row.interface, mets);
    }
    Ok(())
}

/// Meets the interface of a row of InterfaceImpl, from 0, where it is kept.
#[tactic(auto, using(crate::proofs::lemmas::met_order::Lists::none_more))]
fn meet_interface(
    alloc: Global,
    keys: &Keys<'_>,
    kept: &KeptItems,
    k: u32,
    mets: &mut Mets,
) -> Result<(), NoMemory>
    requires { IsKeys keys.now }
    ensures { OnOk result (mets.new ≡ mets.old ++ option_map_or (met_kept_interface (recs_of keys.now) (kept_by kept.now) (place_of keys.now) (rec_of keys.now) k) (slice_get (rec_of keys.now).interface_impl k) []) }
{
    match keys.asm.scope.rec.interface_impl.get(k as usize) {
        None => Ok(()),
        Some(row) => meet_kept(alloc, keys, kept, k, row, mets),
    }
}

/// Meets the interfaces of rows of InterfaceImpl, from 0, that are kept.
fn meet_rows(
    alloc: Global,
    keys: &Keys<'_>,
    kept: &KeptItems,
    rows: &[u32],
    mets: &mut Mets,
) -> Result<(), NoMemory>
    requires { IsKeys keys.now }
    ensures { OnOk result (mets.new ≡ mets.old ++ flat_map (λ k. option_map_or (met_kept_interface (recs_of keys.now) (kept_by kept.now) (place_of keys.now) (rec_of keys.now) k) (slice_get (rec_of keys.now).interface_impl k) []) rows.now) }
{
    for k in rows {
        meet_interface(alloc, keys, kept, *k, mets)?;
    }
    Ok(())
}

/// Meets the interfaces of the kept interface rows of a type.
pub(crate) fn meet_interfaces(
    alloc: Global,
    world: &WorldKeys<'_>,
    kept: &KeptItems,
    at: RowAt,
    mets: &mut Mets,
) -> Result<(), NoMemory>
    requires { IsWorldKeys world.now }
    ensures { OnOk result (mets.new ≡ mets.old ++ met_interfaces (all_of world.now.marker.now) (kept_by kept.now) at) }
{
    let Some(keys) = world.at(at.asm) else {
        return Ok(());
    };
    let token = token_of(table::TYPE_DEF, at.row as usize)?;
    let rows = keys.asm.of_types.interfaces.rows_with(token);
    meet_rows(alloc, &keys, kept, rows, mets)?;
    Ok(())
}
