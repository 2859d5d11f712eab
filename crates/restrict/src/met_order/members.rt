//! What the kept members of a type refer to.

ghost use Rattle.std.specs.Prelude.{◌≡◌, ◌++◌, suc, IfOk, OnOk};
ghost use Rattle.std.specs.List.{flat_map};
ghost use Rattle.il_base.specs.declared.table.TheConstants.{METHOD_DEF};
ghost use Rattle.il_base.specs.world_model.Tokens.{token_of};
ghost use Rattle.rules.specs.type_rules.Rows.{methods_of_type, fields_of_type};
ghost use Rattle.rules.specs.mark_rules.Members.{properties_of_type, events_of_type};
ghost use Rattle.rules.specs.mark_rules.Places.{method_item, field_item, prop_item, event_item};
ghost use Rattle.mark_parts.specs.mark_tables.Assemblies.{all_of};
ghost use Rattle.rules.specs.merge_rules.Order.{met_method_row, met_field_row, met_property_row, met_event_row, met_constraints, those};
ghost use Rattle.merge_plan.specs.Kept.{item_at, kept_by};
ghost use Rattle.token_keys.specs.world_keys.Keys.{IsWorldKeys};
ghost use Rattle.restrict.specs.met_order.Types.{fields_met, properties_met, events_met};

use crate::met_order::constraints::meet_constraints;
use crate::met_order::rows::{meet_event_row, meet_field_row, meet_method_row, meet_property_row};
use il_base::world_model::{AsmRec, token_of};
use il_base::{NoMemory, table};
use mark_parts::mark_rows::members::{
    events_of_type, fields_of_type, methods_of_type, properties_of_type,
};
use merge_plan::{KeptItems, Kind, is_kept};
use rules::link_rules::RowAt;
use std::alloc::Global;
use token_keys::met_forms::Mets;
use token_keys::world_keys::WorldKeys;

/// Those of some rows of a kind that are kept.
fn those(
    alloc: Global,
    recs: &[AsmRec],
    kept: &KeptItems,
    kind: Kind,
    rows: &[RowAt],
) -> Result<Vec<RowAt>, NoMemory>
    ensures { IfOk result (λ some. some.items ≡ those recs.now (kept_by kept.now) (item_at kind recs.now) rows.now) }
{
    let mut some = Vec::new(alloc);
    for at in rows {
        let stays = is_kept(recs, kind, kept, *at)?;
        if stays {
            some.push(*at)?;
        }
    }
    Ok(some)
}

/// The kept methods of a type.
pub(crate) fn kept_methods(
    alloc: Global,
    world: &WorldKeys<'_>,
    kept: &KeptItems,
    at: RowAt,
) -> Result<Vec<RowAt>, NoMemory>
    requires { IsWorldKeys world.now }
    ensures { IfOk result (λ rows. rows.items ≡ those (all_of world.now.marker.now) (kept_by kept.now) (method_item (all_of world.now.marker.now)) (methods_of_type (all_of world.now.marker.now) at)) }
{
    let all = methods_of_type(alloc, world.marker, at)?;
    let marker = world.marker;
    let recs = marker.tables.world.recs.as_slice();
    let some = those(alloc, recs, kept, Kind::Methods, all.as_slice())?;
    Ok(some)
}

/// The kept fields of a type.
fn kept_fields(
    alloc: Global,
    world: &WorldKeys<'_>,
    kept: &KeptItems,
    at: RowAt,
) -> Result<Vec<RowAt>, NoMemory>
    requires { IsWorldKeys world.now }
    ensures { IfOk result (λ rows. rows.items ≡ those (all_of world.now.marker.now) (kept_by kept.now) (field_item (all_of world.now.marker.now)) (fields_of_type (all_of world.now.marker.now) at)) }
{
    let all = fields_of_type(alloc, world.marker, at)?;
    let marker = world.marker;
    let recs = marker.tables.world.recs.as_slice();
    let some = those(alloc, recs, kept, Kind::Fields, all.as_slice())?;
    Ok(some)
}

/// The kept properties of a type.
fn kept_properties(
    alloc: Global,
    world: &WorldKeys<'_>,
    kept: &KeptItems,
    at: RowAt,
) -> Result<Vec<RowAt>, NoMemory>
    requires { IsWorldKeys world.now }
    ensures { IfOk result (λ rows. rows.items ≡ those (all_of world.now.marker.now) (kept_by kept.now) (prop_item (all_of world.now.marker.now)) (properties_of_type (all_of world.now.marker.now) at)) }
{
    let all = properties_of_type(alloc, world.marker, at)?;
    let marker = world.marker;
    let recs = marker.tables.world.recs.as_slice();
    let some = those(alloc, recs, kept, Kind::Properties, all.as_slice())?;
    Ok(some)
}

/// The kept events of a type.
fn kept_events(
    alloc: Global,
    world: &WorldKeys<'_>,
    kept: &KeptItems,
    at: RowAt,
) -> Result<Vec<RowAt>, NoMemory>
    requires { IsWorldKeys world.now }
    ensures { IfOk result (λ rows. rows.items ≡ those (all_of world.now.marker.now) (kept_by kept.now) (event_item (all_of world.now.marker.now)) (events_of_type (all_of world.now.marker.now) at)) }
{
    let all = events_of_type(alloc, world.marker, at)?;
    let marker = world.marker;
    let recs = marker.tables.world.recs.as_slice();
    let some = those(alloc, recs, kept, Kind::Events, all.as_slice())?;
    Ok(some)
}

/// Meets what methods name.
pub(crate) fn meet_methods(
    alloc: Global,
    world: &WorldKeys<'_>,
    methods: &[RowAt],
    mets: &mut Mets,
) -> Result<(), NoMemory>
    requires { IsWorldKeys world.now }
    ensures { OnOk result (mets.new ≡ mets.old ++ flat_map (met_method_row (all_of world.now.marker.now)) methods.now) }
{
    for at in methods {
        meet_method_row(alloc, world, *at, mets)?;
    }
    Ok(())
}

/// Meets the constraints of a method's generic parameters.
fn meet_method_constraints(
    alloc: Global,
    world: &WorldKeys<'_>,
    at: RowAt,
    mets: &mut Mets,
) -> Result<(), NoMemory>
    requires { IsWorldKeys world.now }
    ensures { OnOk result (mets.new ≡ mets.old ++ met_constraints (all_of world.now.marker.now) at (token_of METHOD_DEF (suc at.row))) }
{
    let token = token_of(table::METHOD_DEF, at.row as usize)?;
    meet_constraints(alloc, world, at, token, mets)
}

/// Meets the constraints of methods' generic parameters.
pub(crate) fn meet_methods_constraints(
    alloc: Global,
    world: &WorldKeys<'_>,
    methods: &[RowAt],
    mets: &mut Mets,
) -> Result<(), NoMemory>
    requires { IsWorldKeys world.now }
    ensures { OnOk result (mets.new ≡ mets.old ++ flat_map (λ m. met_constraints (all_of world.now.marker.now) m (token_of METHOD_DEF (suc m.row))) methods.now) }
{
    for at in methods {
        meet_method_constraints(alloc, world, *at, mets)?;
    }
    Ok(())
}

/// Meets what fields name.
fn meet_field_rows(
    alloc: Global,
    world: &WorldKeys<'_>,
    fields: &[RowAt],
    mets: &mut Mets,
) -> Result<(), NoMemory>
    requires { IsWorldKeys world.now }
    ensures { OnOk result (mets.new ≡ mets.old ++ flat_map (met_field_row (all_of world.now.marker.now)) fields.now) }
{
    for at in fields {
        meet_field_row(alloc, world, *at, mets)?;
    }
    Ok(())
}

/// Meets what properties name.
fn meet_property_rows(
    alloc: Global,
    world: &WorldKeys<'_>,
    properties: &[RowAt],
    mets: &mut Mets,
) -> Result<(), NoMemory>
    requires { IsWorldKeys world.now }
    ensures { OnOk result (mets.new ≡ mets.old ++ flat_map (met_property_row (all_of world.now.marker.now)) properties.now) }
{
    for at in properties {
        meet_property_row(alloc, world, *at, mets)?;
    }
    Ok(())
}

/// Meets what events name.
fn meet_event_rows(
    alloc: Global,
    world: &WorldKeys<'_>,
    events: &[RowAt],
    mets: &mut Mets,
) -> Result<(), NoMemory>
    requires { IsWorldKeys world.now }
    ensures { OnOk result (mets.new ≡ mets.old ++ flat_map (met_event_row (all_of world.now.marker.now)) events.now) }
{
    for at in events {
        meet_event_row(alloc, world, *at, mets)?;
    }
    Ok(())
}

/// Meets what the kept fields of a type name.
pub(crate) fn meet_fields(
    alloc: Global,
    world: &WorldKeys<'_>,
    kept: &KeptItems,
    at: RowAt,
    mets: &mut Mets,
) -> Result<(), NoMemory>
    requires { IsWorldKeys world.now }
    ensures { OnOk result (mets.new ≡ mets.old ++ fields_met (all_of world.now.marker.now) (kept_by kept.now) at) }
{
    let fields = kept_fields(alloc, world, kept, at)?;
    meet_field_rows(alloc, world, fields.as_slice(), mets)?;
    Ok(())
}

/// Meets what the kept properties of a type name.
pub(crate) fn meet_properties(
    alloc: Global,
    world: &WorldKeys<'_>,
    kept: &KeptItems,
    at: RowAt,
    mets: &mut Mets,
) -> Result<(), NoMemory>
    requires { IsWorldKeys world.now }
    ensures { OnOk result (mets.new ≡ mets.old ++ properties_met (all_of world.now.marker.now) (kept_by kept.now) at) }
{
    let properties = kept_properties(alloc, world, kept, at)?;
    meet_property_rows(alloc, world, properties.as_slice(), mets)?;
    Ok(())
}

/// Meets what the kept events of a type name.
pub(crate) fn meet_events(
    alloc: Global,
    world: &WorldKeys<'_>,
    kept: &KeptItems,
    at: RowAt,
    mets: &mut Mets,
) -> Result<(), NoMemory>
    requires { IsWorldKeys world.now }
    ensures { OnOk result (mets.new ≡ mets.old ++ events_met (all_of world.now.marker.now) (kept_by kept.now) at) }
{
    let events = kept_events(alloc, world, kept, at)?;
    meet_event_rows(alloc, world, events.as_slice(), mets)?;
    Ok(())
}
