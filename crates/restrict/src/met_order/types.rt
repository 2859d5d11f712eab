//! What kept types refer to.

ghost use Rattle.std.specs.Prelude.{◌≡◌, ◌++◌, suc, IfOk, OnOk};
ghost use Rattle.std.specs.List.{flat_map};
ghost use Rattle.il_base.specs.declared.table.TheConstants.{TYPE_DEF};
ghost use Rattle.il_base.specs.world_model.Tokens.{token_of};
ghost use Rattle.mark_parts.specs.mark_tables.Assemblies.{all_of};
ghost use Rattle.rules.specs.merge_rules.Order.{met_constraints, met_in_type, met_by_types};
ghost use Rattle.merge_plan.specs.Kept.{kept_by};
ghost use Rattle.token_keys.specs.world_keys.Keys.{IsWorldKeys};
ghost use Rattle.restrict.specs.met_order.Types.{first_met, code_met, last_met};

use crate::met_order::constraints::meet_constraints;
use crate::met_order::impls::meet_impls;
use crate::met_order::interfaces::meet_interfaces;
use crate::met_order::members::{
    kept_methods, meet_events, meet_fields, meet_methods, meet_methods_constraints, meet_properties,
};
use crate::met_order::rows::meet_extends;
use il_base::world_model::token_of;
use il_base::{NoMemory, table};
use merge_plan::{KeptItems, Kind, kept_rows};
use rules::link_rules::RowAt;
use std::alloc::Global;
use token_keys::met_forms::Mets;
use token_keys::world_keys::WorldKeys;

/// Meets the base, the interfaces and the fields of a type.
#[tactic(auto, using(crate::proofs::lemmas::met_order::Lists::three_put))]
fn meet_first(
    alloc: Global,
    world: &WorldKeys<'_>,
    kept: &KeptItems,
    at: RowAt,
    mets: &mut Mets,
) -> Result<(), NoMemory>
    requires { IsWorldKeys world.now }
    ensures { OnOk result (mets.new ≡ mets.old ++ first_met (all_of world.now.marker.now) (kept_by kept.now) at) }
{
    meet_extends(alloc, world, at, mets)?;
    meet_interfaces(alloc, world, kept, at, mets)?;
    meet_fields(alloc, world, kept, at, mets)
}

/// Meets the constraints of a type's generic parameters.
fn meet_type_constraints(
    alloc: Global,
    world: &WorldKeys<'_>,
    at: RowAt,
    mets: &mut Mets,
) -> Result<(), NoMemory>
    requires { IsWorldKeys world.now }
    ensures { OnOk result (mets.new ≡ mets.old ++ met_constraints (all_of world.now.marker.now) at (token_of TYPE_DEF (suc at.row))) }
{
    let token = token_of(table::TYPE_DEF, at.row as usize)?;
    meet_constraints(alloc, world, at, token, mets)
}

/// Meets some methods of a type, the constraints of the type and those of the methods.
#[tactic(auto, using(crate::proofs::lemmas::met_order::Lists::three_put))]
fn meet_code(
    alloc: Global,
    world: &WorldKeys<'_>,
    at: RowAt,
    methods: &[RowAt],
    mets: &mut Mets,
) -> Result<(), NoMemory>
    requires { IsWorldKeys world.now }
    ensures { OnOk result (mets.new ≡ mets.old ++ code_met (all_of world.now.marker.now) at methods.now) }
{
    meet_methods(alloc, world, methods, mets)?;
    meet_type_constraints(alloc, world, at, mets)?;
    meet_methods_constraints(alloc, world, methods, mets)
}

/// Meets the properties, the events and the MethodImpl rows of a type.
#[tactic(auto, using(crate::proofs::lemmas::met_order::Lists::three_put))]
fn meet_last(
    alloc: Global,
    world: &WorldKeys<'_>,
    kept: &KeptItems,
    at: RowAt,
    mets: &mut Mets,
) -> Result<(), NoMemory>
    requires { IsWorldKeys world.now }
    ensures { OnOk result (mets.new ≡ mets.old ++ last_met (all_of world.now.marker.now) (kept_by kept.now) at) }
{
    meet_properties(alloc, world, kept, at, mets)?;
    meet_events(alloc, world, kept, at, mets)?;
    meet_impls(alloc, world, kept, at, mets)
}

/// Meets what a kept type and its kept members name.
pub fn meet_in_type(
    alloc: Global,
    world: &WorldKeys<'_>,
    kept: &KeptItems,
    at: RowAt,
    mets: &mut Mets,
) -> Result<(), NoMemory>
    requires { IsWorldKeys world.now }
    ensures { OnOk result (mets.new ≡ mets.old ++ met_in_type (all_of world.now.marker.now) (kept_by kept.now) at) }
{
    let methods = kept_methods(alloc, world, kept, at)?;
    meet_first(alloc, world, kept, at, mets)?;
    meet_code(alloc, world, at, methods.as_slice(), mets)?;
    meet_last(alloc, world, kept, at, mets)?;
    Ok(())
}

/// Meets what types and their kept members name.
fn meet_types(
    alloc: Global,
    world: &WorldKeys<'_>,
    kept: &KeptItems,
    types: &[RowAt],
    mets: &mut Mets,
) -> Result<(), NoMemory>
    requires { IsWorldKeys world.now }
    ensures { OnOk result (mets.new ≡ mets.old ++ flat_map (met_in_type (all_of world.now.marker.now) (kept_by kept.now)) types.now) }
{
    for at in types {
        meet_in_type(alloc, world, kept, *at, mets)?;
    }
    Ok(())
}

/// What the kept types and their members name, in the order of the output.
#[tactic(auto, unfolding(rules::specs::merge_rules::Order::met_by_types, rules::specs::merge_rules::Numbers::kept_types))]
pub fn met_by_types(
    alloc: Global,
    world: &WorldKeys<'_>,
    kept: &KeptItems,
) -> Result<Mets, NoMemory>
    requires { IsWorldKeys world.now }
    ensures { IfOk result (λ mets. mets ≡ met_by_types (all_of world.now.marker.now) (kept_by kept.now)) }
{
    let marker = world.marker;
    let recs = marker.tables.world.recs.as_slice();
    let types = kept_rows(alloc, recs, Kind::Types, kept)?;
    let mut mets = Mets::new(alloc);
    meet_types(alloc, world, kept, types.as_slice(), &mut mets)?;
    Ok(mets)
}
