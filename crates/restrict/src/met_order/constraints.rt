//! What the constraints of generic parameters refer to (II.22.20, II.22.21).

ghost use Rattle.std.specs.Prelude.{◌≡◌, ◌++◌, [], suc, slice_get, OnOk};
ghost use Rattle.std.specs.List.{flat_map};
ghost use Rattle.std.specs.Option.{option_map_or};
ghost use Rattle.il_base.specs.declared.table.TheConstants.{GENERIC_PARAM};
ghost use Rattle.il_base.specs.world_model.Tokens.{token_of};
ghost use Rattle.mark_parts.specs.mark_tables.Assemblies.{all_of};
ghost use Rattle.rules.specs.merge_rules.Order.{met_constraint, met_constraints};
ghost use Rattle.token_keys.specs.Keys.{IsKeys, recs_of, place_of, rec_of};
ghost use Rattle.token_keys.specs.world_keys.Keys.{IsWorldKeys};
ghost use Rattle.restrict.specs.met_order.Owned.{met_bound, met_bounds, met_params};

use crate::met_parts::tokens::meet_type;
use il_base::world_model::token_of;
use il_base::{NoMemory, table};
use rules::link_rules::RowAt;
use std::alloc::Global;
use token_keys::keys::Keys;
use token_keys::met_forms::Mets;
use token_keys::world_keys::WorldKeys;

/// Meets the type of a row of GenericParamConstraint, from 0.
#[tactic(auto, using(crate::proofs::lemmas::met_order::Lists::none_more))]
fn meet_bound(alloc: Global, keys: &Keys<'_>, k: u32, mets: &mut Mets) -> Result<(), NoMemory>
    requires { IsKeys keys.now }
    ensures { OnOk result (mets.new ≡ mets.old ++ option_map_or (met_bound (recs_of keys.now) (place_of keys.now) (rec_of keys.now)) (slice_get (rec_of keys.now).generic_param_constraint k) []) }
{
    match keys.asm.scope.rec.generic_param_constraint.get(k as usize) {
        None => Ok(()),
        Some(row) => meet_type(alloc, keys, row.constraint, mets),
    }
}

/// Meets the types of rows of GenericParamConstraint, from 0.
fn meet_bounds(
    alloc: Global,
    keys: &Keys<'_>,
    rows: &[u32],
    mets: &mut Mets,
) -> Result<(), NoMemory>
    requires { IsKeys keys.now }
    ensures { OnOk result (mets.new ≡ mets.old ++ flat_map (λ k. option_map_or (met_bound (recs_of keys.now) (place_of keys.now) (rec_of keys.now)) (slice_get (rec_of keys.now).generic_param_constraint k) []) rows.now) }
{
    for k in rows {
        meet_bound(alloc, keys, *k, mets)?;
    }
    Ok(())
}

/// Meets the constraints of a row of GenericParam, from 0.
fn meet_bounds_of(alloc: Global, keys: &Keys<'_>, k: u32, mets: &mut Mets) -> Result<(), NoMemory>
    requires { IsKeys keys.now }
    ensures { OnOk result (mets.new ≡ mets.old ++ flat_map (met_constraint (recs_of keys.now) (place_of keys.now) (rec_of keys.now) (token_of GENERIC_PARAM (suc k))) (rec_of keys.now).generic_param_constraint) }
{
    let token = token_of(table::GENERIC_PARAM, k as usize)?;
    let rows = keys.asm.owners.constraints.rows_with(token);
    meet_bounds(alloc, keys, rows, mets)?;
    Ok(())
}

/// Meets the constraints of a row of GenericParam, from 0, that is there.
#[tactic(auto, using(crate::proofs::lemmas::met_order::Lists::none_more))]
fn meet_param(alloc: Global, keys: &Keys<'_>, k: u32, mets: &mut Mets) -> Result<(), NoMemory>
    requires { IsKeys keys.now }
    ensures { OnOk result (mets.new ≡ mets.old ++ option_map_or (met_bounds (recs_of keys.now) (place_of keys.now) (rec_of keys.now) k) (slice_get (rec_of keys.now).generic_param k) []) }
{
    match keys.asm.scope.rec.generic_param.get(k as usize) {
        None => Ok(()),
        Some(_row) => meet_bounds_of(alloc, keys, k, mets),
    }
}

/// Meets the constraints of rows of GenericParam, from 0.
fn meet_params(
    alloc: Global,
    keys: &Keys<'_>,
    rows: &[u32],
    mets: &mut Mets,
) -> Result<(), NoMemory>
    requires { IsKeys keys.now }
    ensures { OnOk result (mets.new ≡ mets.old ++ flat_map (λ k. option_map_or (met_bounds (recs_of keys.now) (place_of keys.now) (rec_of keys.now) k) (slice_get (rec_of keys.now).generic_param k) []) rows.now) }
{
    for k in rows {
        meet_param(alloc, keys, *k, mets)?;
    }
    Ok(())
}

/// Meets the constraints of the generic parameters of a type or a method of an assembly, by its token.
fn meet_owned(alloc: Global, keys: &Keys<'_>, owner: u32, mets: &mut Mets) -> Result<(), NoMemory>
    requires { IsKeys keys.now }
    ensures { OnOk result (mets.new ≡ mets.old ++ met_params (recs_of keys.now) (place_of keys.now) (rec_of keys.now) owner) }
{
    let rows = keys.asm.owners.params.rows_with(owner);
    meet_params(alloc, keys, rows, mets)?;
    Ok(())
}

/// Meets the constraints of the generic parameters of a type or a method of the assembly of a row, by its token.
#[tactic(auto, using(crate::proofs::lemmas::met_order::Lists::none_more))]
pub fn meet_constraints(
    alloc: Global,
    world: &WorldKeys<'_>,
    at: RowAt,
    owner: u32,
    mets: &mut Mets,
) -> Result<(), NoMemory>
    requires { IsWorldKeys world.now }
    ensures { OnOk result (mets.new ≡ mets.old ++ met_constraints (all_of world.now.marker.now) at owner) }
{
    match world.at(at.asm) {
        None => Ok(()),
        Some(keys) => meet_owned(alloc, &keys, owner, mets),
    }
}
