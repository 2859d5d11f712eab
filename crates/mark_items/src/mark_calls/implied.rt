//! The interfaces that an interface is or implies by its rows and theirs (II.22.23), as definitions.

ghost use Rattle.std.specs.Prelude.{◌≡◌, ◌≤◌, ◌++◌, ◌∷◌, [], drop, length, slice_get, IfOk, OnOk};
ghost use Rattle.std.specs.List.{flat_map, list_any};
ghost use Rattle.std.specs.Option.{option_map_or};
ghost use Rattle.rules.specs.link_rules.Members.{type_count};
ghost use Rattle.rules.specs.link_rules.Cycles.{add_new, add_all, led_to, same_row, interface_rows};
ghost use Rattle.rules.specs.mark_rules.Types.{implies};
ghost use Rattle.mark_parts.specs.mark_tables.Assemblies.{recs_of, place_of, rec_of, all_of, IsAssembly, IsMarker};
ghost use Rattle.mark_items.specs.mark_calls.Implied.{interface_home, definition_in};

use il_base::world_model::{AsmRec, TypeExpr, token_of};
use il_base::{NoMemory, table};
use mark_parts::mark_tables::assembly::Assembly;
use mark_parts::mark_tables::marker::Marker;
use rules::link_rules::RowAt;
use std::alloc::Global;
use type_tables::member_search::bases::{definition, is_interface};
use virtual_calls::impls::same_row;
use virtual_calls::nearest::type_count;

/// Adds the definition of an interface; any other type adds nothing.
fn add_interface(all: &[AsmRec], ty: &TypeExpr, rows: &mut Vec<RowAt>) -> Result<(), NoMemory>
    ensures { OnOk result (rows.new.items ≡ rows.old.items ++ interface_home all.now ty.now) }
{
    if !is_interface(all, ty)? {
        return Ok(());
    }
    match definition(all, ty) {
        Ok(Some(at)) => {
            rows.push(at)?;
            Ok(())
        }
        Ok(None) => Ok(()),
        Err(error) => Err(error),
    }
}

/// Adds the definition of the interface that a row, from 0, names.
fn add_row(asm: &Assembly<'_>, k: u32, rows: &mut Vec<RowAt>) -> Result<(), NoMemory>
    requires { IsAssembly asm.now }
    ensures { OnOk result (rows.new.items ≡ rows.old.items ++ option_map_or (definition_in (recs_of asm.now) (place_of asm.now) (rec_of asm.now)) (slice_get (rec_of asm.now).interface_impl k) []) }
{
    let Some(row) = asm.scope.rec.interface_impl.get(k as usize) else {
        return Ok(());
    };
    match asm.scope.token_type(row.interface) {
        Ok(ty) => add_interface(asm.scope.linked.all, ty, rows),
        Err(_) => Ok(()),
    }
}

/// Adds the definitions of the interfaces that these rows, from 0, name.
fn add_rows(asm: &Assembly<'_>, ks: &[u32], rows: &mut Vec<RowAt>) -> Result<(), NoMemory>
    requires { IsAssembly asm.now }
    ensures { OnOk result (rows.new.items ≡ rows.old.items ++ flat_map (λ k. option_map_or (definition_in (recs_of asm.now) (place_of asm.now) (rec_of asm.now)) (slice_get (rec_of asm.now).interface_impl k) []) ks.now) }
{
    for k in ks {
        add_row(asm, *k, rows)?;
    }
    Ok(())
}

/// Adds the definitions of the interfaces that a type's rows name.
fn add_interfaces(marker: &Marker<'_>, at: RowAt, rows: &mut Vec<RowAt>) -> Result<(), NoMemory>
    requires { IsMarker marker.now }
    ensures { OnOk result (rows.new.items ≡ rows.old.items ++ interface_rows (all_of marker.now) at) }
{
    let Some(asm) = marker.assembly_at(at.asm) else {
        return Ok(());
    };
    let token = token_of(table::TYPE_DEF, at.row as usize)?;
    let ks = asm.of_types.interfaces.rows_with(token);
    add_rows(&asm, ks, rows)?;
    Ok(())
}

/// The definitions one step from some types, those of each type in order.
fn led_by(alloc: Global, marker: &Marker<'_>, types: &[RowAt]) -> Result<Vec<RowAt>, NoMemory>
    requires { IsMarker marker.now }
    ensures { IfOk result (λ led. led.items ≡ flat_map (interface_rows (all_of marker.now)) types.now) }
{
    let mut led = Vec::new(alloc);
    for at in types {
        add_interfaces(marker, *at, &mut led)?;
    }
    Ok(led)
}

/// Whether a row is among some.
pub(crate) fn is_among(rows: &[RowAt], at: RowAt) -> bool
    ensures { result ≡ list_any (same_row at) rows.now }
{
    rows.iter().any(|other| same_row(at, *other))
}

/// Adds a row, where it isn't among them.
fn add_new(found: &mut Vec<RowAt>, at: RowAt) -> Result<(), NoMemory>
    ensures { OnOk result (found.new.items ≡ add_new same_row found.old.items at) }
{
    if is_among(found.as_slice(), at) {
        return Ok(());
    }
    found.push(at)?;
    Ok(())
}

/// Adds some rows, each where it isn't among them.
fn add_all(found: &mut Vec<RowAt>, rows: &[RowAt]) -> Result<(), NoMemory>
    ensures { OnOk result (found.new.items ≡ add_all same_row found.old.items rows.now) }
{
    for at in rows {
        add_new(found, *at)?;
    }
    Ok(())
}

/// Adds the definitions one step from those at `start` and after it, where they aren't there yet.
fn add_round(
    alloc: Global,
    marker: &Marker<'_>,
    found: &mut Vec<RowAt>,
    start: usize,
) -> Result<(), NoMemory>
    requires marker { IsMarker marker.now }
    requires start { start ≤ length found.old.items }
    ensures { OnOk result (found.new.items ≡ add_all same_row found.old.items (flat_map (interface_rows (all_of marker.now)) (drop start found.old.items))) }
{
    let led = led_by(alloc, marker, &found[start..])?;
    add_all(found, led.as_slice())?;
    Ok(())
}

/// All definitions reachable from a type in at most `steps` steps, itself first. The search ends as soon as a round finds nothing new.
fn led_to(
    alloc: Global,
    marker: &Marker<'_>,
    rounds: u32,
    at: RowAt,
) -> Result<Vec<RowAt>, NoMemory>
    requires { IsMarker marker.now }
    ensures { IfOk result (λ found. found.items ≡ led_to same_row (interface_rows (all_of marker.now)) rounds (at ∷ [])) }
{
    let mut found = Vec::new(alloc);
    found.push(at)?;
    let mut looked_at = 0;
    for round in 0..rounds {
        let before = found.len();
        add_round(alloc, marker, &mut found, looked_at)?;
        if found.len() == before {
            return Ok(found);
        }
        looked_at = before;
    }
    Ok(found)
}

/// The definitions that an interface is or implies by its rows and theirs, itself first.
pub fn implies(alloc: Global, marker: &Marker<'_>, at: RowAt) -> Result<Vec<RowAt>, NoMemory>
    requires { IsMarker marker.now }
    ensures { IfOk result (λ found. found.items ≡ implies (all_of marker.now) at) }
{
    let rounds = type_count(&marker.tables)?;
    led_to(alloc, marker, rounds, at)
}
