//! What the MethodImpl rows of a type refer to that are written (II.22.27): those whose body is kept or the core library's.

ghost use Rattle.std.specs.Prelude.{◌≡◌, ◌++◌, ◌||◌, [], slice_get, IfOk, OnOk};
ghost use Rattle.std.specs.List.{list_any, flat_map};
ghost use Rattle.std.specs.Option.{option_map_or};
ghost use Rattle.il_base.specs.declared.ids.Item.TheVariants as item;
ghost use Rattle.rules.specs.link_rules.Cycles.{listed};
ghost use Rattle.rules.specs.mark_rules.Places.{is_core};
ghost use Rattle.mark_parts.specs.mark_tables.Assemblies.{all_of};
ghost use Rattle.rules.specs.merge_rules.Keys.{method_key};
ghost use Rattle.rules.specs.merge_rules.Order.{met_callee, is_kept_method, met_impls};
ghost use Rattle.merge_plan.specs.Kept.{kept_by};
ghost use Rattle.token_keys.specs.key_codes.Keys as coded;
ghost use Rattle.token_keys.specs.Keys.{IsKeys, recs_of, place_of, rec_of};
ghost use Rattle.token_keys.specs.world_keys.Keys.{IsWorldKeys};
ghost use Rattle.restrict.specs.met_order.Owned.{met_kept_impl};

use crate::met_parts::tokens::meet_callee;
use il_base::world_model::{AsmRec, MethodImplRow, token_of};
use il_base::{Item, MethodId, NoMemory, table};
use mark_parts::mark_facts::rows::is_core;
use merge_plan::KeptItems;
use rules::link_rules::RowAt;
use std::alloc::Global;
use token_keys::key_codes::keys::MethodKey;
use token_keys::keys::Keys;
use token_keys::members::method_key;
use token_keys::met_forms::Mets;
use token_keys::world_keys::WorldKeys;

/// Whether a method is kept or the core library's.
fn stays(recs: &[AsmRec], kept: &KeptItems, id: MethodId) -> Result<bool, NoMemory>
    ensures { IfOk result (λ b. b ≡ (kept_by kept.now (item.Method id) || is_core recs.now (item.Method id))) }
{
    if kept.has(Item::Method(id)) {
        return Ok(true);
    }
    is_core(recs, Item::Method(id))
}

/// Whether the method of a key is kept or the core library's; one that names nothing is neither.
fn is_kept_method(recs: &[AsmRec], kept: &KeptItems, key: &MethodKey) -> Result<bool, NoMemory>
    ensures { IfOk result (λ b. b ≡ is_kept_method recs.now (kept_by kept.now) (coded.method_key key.now)) }
{
    match key {
        MethodKey::Own(id) => stays(recs, kept, *id),
        MethodKey::Found(id, _) => stays(recs, kept, *id),
        MethodKey::Absent(_) => Ok(false),
    }
}

/// Whether a body that a token names is kept or the core library's.
fn has_kept_body(
    alloc: Global,
    keys: &Keys<'_>,
    kept: &KeptItems,
    token: u32,
) -> Result<bool, NoMemory>
    requires { IsKeys keys.now }
    ensures { IfOk result (λ b. b ≡ list_any (is_kept_method (recs_of keys.now) (kept_by kept.now)) (listed (method_key (recs_of keys.now) (place_of keys.now) (rec_of keys.now) token))) }
{
    match method_key(alloc, keys, token) {
        Ok(Some(key)) => {
            let marker = keys.marker;
            let recs = marker.tables.world.recs.as_slice();
            let is = is_kept_method(recs, kept, &key)?;
            Ok(is)
        }
        Ok(None) => Ok(false),
        Err(error) => Err(error),
    }
}

/// Meets the methods of a row.
#[tactic(auto, using(crate::proofs::lemmas::met_order::Lists::two_put))]
fn meet_both(
    alloc: Global,
    keys: &Keys<'_>,
    row: &MethodImplRow,
    mets: &mut Mets,
) -> Result<(), NoMemory>
    requires { IsKeys keys.now }
    ensures { OnOk result (mets.new ≡ mets.old ++ (met_callee (recs_of keys.now) (place_of keys.now) (rec_of keys.now) row.now.body ++ met_callee (recs_of keys.now) (place_of keys.now) (rec_of keys.now) row.now.declaration)) }
{
    meet_callee(alloc, keys, row.body, mets)?;
    meet_callee(alloc, keys, row.declaration, mets)
}

/// Meets the methods of a row that is written.
#[tactic(auto, using(crate::proofs::lemmas::met_order::Lists::none_more))]
fn meet_kept(
    alloc: Global,
    keys: &Keys<'_>,
    kept: &KeptItems,
    row: &MethodImplRow,
    mets: &mut Mets,
) -> Result<(), NoMemory>
    requires { IsKeys keys.now }
    ensures { OnOk result (mets.new ≡ mets.old ++ met_kept_impl (recs_of keys.now) (kept_by kept.now) (place_of keys.now) (rec_of keys.now) row.now) }
{
    let stays = has_kept_body(alloc, keys, kept, row.body)?;
    if stays {
        return meet_both(alloc, keys, row, mets);
    }
    Ok(())
}

/// Meets the methods of a row of MethodImpl, from 0, that is written.
#[tactic(auto, using(crate::proofs::lemmas::met_order::Lists::none_more))]
fn meet_impl(
    alloc: Global,
    keys: &Keys<'_>,
    kept: &KeptItems,
    k: u32,
    mets: &mut Mets,
) -> Result<(), NoMemory>
    requires { IsKeys keys.now }
    ensures { OnOk result (mets.new ≡ mets.old ++ option_map_or (met_kept_impl (recs_of keys.now) (kept_by kept.now) (place_of keys.now) (rec_of keys.now)) (slice_get (rec_of keys.now).method_impl k) []) }
{
    match keys.asm.scope.rec.method_impl.get(k as usize) {
        None => Ok(()),
        Some(row) => meet_kept(alloc, keys, kept, row, mets),
    }
}

/// Meets the methods of rows of MethodImpl, from 0, that are written.
fn meet_rows(
    alloc: Global,
    keys: &Keys<'_>,
    kept: &KeptItems,
    rows: &[u32],
    mets: &mut Mets,
) -> Result<(), NoMemory>
    requires { IsKeys keys.now }
    ensures { OnOk result (mets.new ≡ mets.old ++ flat_map (λ k. option_map_or (met_kept_impl (recs_of keys.now) (kept_by kept.now) (place_of keys.now) (rec_of keys.now)) (slice_get (rec_of keys.now).method_impl k) []) rows.now) }
{
    for k in rows {
        meet_impl(alloc, keys, kept, *k, mets)?;
    }
    Ok(())
}

/// Meets the methods of the MethodImpl rows of a type that are written.
pub(crate) fn meet_impls(
    alloc: Global,
    world: &WorldKeys<'_>,
    kept: &KeptItems,
    at: RowAt,
    mets: &mut Mets,
) -> Result<(), NoMemory>
    requires { IsWorldKeys world.now }
    ensures { OnOk result (mets.new ≡ mets.old ++ met_impls (all_of world.now.marker.now) (kept_by kept.now) at) }
{
    let Some(keys) = world.at(at.asm) else {
        return Ok(());
    };
    let token = token_of(table::TYPE_DEF, at.row as usize)?;
    let rows = keys.asm.of_types.impls.rows_with(token);
    meet_rows(alloc, &keys, kept, rows, mets)?;
    Ok(())
}
