//! The facts that follow from a type with interface slots and interface rows that are known (II.12.2).

ghost use Rattle.std.specs.Prelude.{◌≡◌, ◌++◌, ◌∷◌, [], slice_get, Some, IfOk, OnOk};
ghost use Rattle.std.specs.List.{flat_map};
ghost use Rattle.std.specs.Option.{option_map_or};
ghost use Rattle.rules.specs.link_rules.Types.{at_row};
ghost use Rattle.rules.specs.link_rules.Cycles.{listed, home_of, only_interface};
ghost use Rattle.rules.specs.type_rules.Rows.{methods_of_type};
ghost use Rattle.rules.specs.type_rules.Dispatch.{implied};
ghost use Rattle.base_laws.specs.known_laws.Known.{slot_gives, own_rows, methods_implied, row_methods, row_gives};
ghost use Rattle.mark_parts.specs.mark_tables.Assemblies.{all_of, rec_of, IsAssembly, IsMarker};
ghost use Rattle.marking.specs.mark_known.Facts.{recs_in, knows, IsKnown, interface_by, row_at};

use crate::mark_known::known::{Known, is_known_row};
use crate::mark_known::slots::Rule;
use il_base::world_model::{AsmRec, TypeExpr, token_of};
use il_base::{NoMemory, table};
use mark_items::mark_calls::interface_calls::{add_interface_fills, add_interface_runs};
use mark_parts::mark_facts::facts::Facts;
use mark_parts::mark_facts::kinds::Kind;
use mark_parts::mark_rows::members::methods_of_type;
use mark_parts::mark_tables::marker::Marker;
use rules::link_rules::RowAt;
use std::alloc::Global;
use type_tables::member_search::bases::{definition, is_interface};
use type_tables::subtypes::rounds::implied;

/// Adds an interface row of an assembly, by its number from 0, if it is there.
fn add_row_at(asm: u32, rec: &AsmRec, k: u32, rows: &mut Vec<RowAt>) -> Result<(), NoMemory>
    ensures { OnOk result (rows.new.items ≡ rows.old.items ++ option_map_or (row_at asm k) (slice_get rec.now.interface_impl k) []) }
{
    match rec.interface_impl.get(k as usize) {
        Some(_row) => {
            rows.push(RowAt { asm, row: k })?;
            Ok(())
        }
        None => Ok(()),
    }
}

/// Adds these interface rows of an assembly.
fn add_rows_at(asm: u32, rec: &AsmRec, ks: &[u32], rows: &mut Vec<RowAt>) -> Result<(), NoMemory>
    ensures { OnOk result (rows.new.items ≡ rows.old.items ++ flat_map (λ k. option_map_or (row_at asm k) (slice_get rec.now.interface_impl k) []) ks.now) }
{
    for k in ks {
        add_row_at(asm, rec, *k, rows)?;
    }
    Ok(())
}

/// Adds the interface rows of a type.
fn add_own_rows(marker: &Marker<'_>, c: RowAt, rows: &mut Vec<RowAt>) -> Result<(), NoMemory>
    requires { IsMarker marker.now }
    ensures { OnOk result (rows.new.items ≡ rows.old.items ++ own_rows (all_of marker.now) c) }
{
    let Some(asm) = marker.assembly_at(c.asm) else {
        return Ok(());
    };
    let token = token_of(table::TYPE_DEF, c.row as usize)?;
    let ks = asm.of_types.interfaces.rows_with(token);
    add_rows_at(c.asm, asm.scope.rec, ks, rows)?;
    Ok(())
}

/// The interface rows of a type.
fn own_rows(alloc: Global, marker: &Marker<'_>, c: RowAt) -> Result<Vec<RowAt>, NoMemory>
    requires { IsMarker marker.now }
    ensures { IfOk result (λ rows. rows.items ≡ own_rows (all_of marker.now) c) }
{
    let mut rows = Vec::new(alloc);
    add_own_rows(marker, c, &mut rows)?;
    Ok(rows)
}

/// Adds the methods of an interface instance.
fn add_methods_of(
    alloc: Global,
    marker: &Marker<'_>,
    ty: &TypeExpr,
    methods: &mut Vec<RowAt>,
) -> Result<(), NoMemory>
    requires { IsMarker marker.now }
    ensures { OnOk result (methods.new.items ≡ methods.old.items ++ flat_map (methods_of_type (all_of marker.now)) (listed (home_of (all_of marker.now) ty.now))) }
{
    match definition(marker.tables.world.recs.as_slice(), ty) {
        Ok(Some(at)) => {
            let own = methods_of_type(alloc, marker, at)?;
            methods.extend_from_slice(own.as_slice())?;
            Ok(())
        }
        Ok(None) => Ok(()),
        Err(error) => Err(error),
    }
}

/// Adds the methods of these interface instances.
fn add_methods(
    alloc: Global,
    marker: &Marker<'_>,
    instances: &[TypeExpr],
    methods: &mut Vec<RowAt>,
) -> Result<(), NoMemory>
    requires { IsMarker marker.now }
    ensures { OnOk result (methods.new.items ≡ methods.old.items ++ flat_map (λ i. flat_map (methods_of_type (all_of marker.now)) (listed (home_of (all_of marker.now) i))) instances.now) }
{
    for ty in instances {
        add_methods_of(alloc, marker, ty, methods)?;
    }
    Ok(())
}

/// The methods of the interfaces that an interface is or implies.
fn methods_implied(
    alloc: Global,
    marker: &Marker<'_>,
    ty: &TypeExpr,
) -> Result<Vec<RowAt>, NoMemory>
    requires { IsMarker marker.now }
    ensures { IfOk result (λ methods. methods.items ≡ methods_implied (all_of marker.now) ty.now) }
{
    let instances = implied(alloc, &marker.tables, ty)?;
    let mut methods = Vec::new(alloc);
    add_methods(alloc, marker, instances.as_slice(), &mut methods)?;
    Ok(methods)
}

/// The methods of the interfaces that a type is or implies, if it is an interface.
fn methods_named(alloc: Global, marker: &Marker<'_>, ty: &TypeExpr) -> Result<Vec<RowAt>, NoMemory>
    requires { IsMarker marker.now }
    ensures { IfOk result (λ methods. methods.items ≡ flat_map (methods_implied (all_of marker.now)) (only_interface (all_of marker.now) (Some ty.now))) }
{
    let is = is_interface(marker.tables.world.recs.as_slice(), ty)?;
    if !is {
        return Ok(Vec::new(alloc));
    }
    let methods = methods_implied(alloc, marker, ty)?;
    Ok(methods)
}

/// The methods of the interfaces that a row names or implies.
#[tactic(auto, unfolding(base_laws::specs::known_laws::Known::row_methods))]
fn row_methods(alloc: Global, marker: &Marker<'_>, r: RowAt) -> Result<Vec<RowAt>, NoMemory>
    requires { IsMarker marker.now }
    ensures { IfOk result (λ methods. methods.items ≡ row_methods (all_of marker.now) r) }
{
    let Some(asm) = marker.assembly_at(r.asm) else {
        return Ok(Vec::new(alloc));
    };
    let Some(row) = asm.scope.rec.interface_impl.get(r.row as usize) else {
        return Ok(Vec::new(alloc));
    };
    match asm.scope.token_type(row.interface) {
        Ok(ty) => methods_named(alloc, marker, ty),
        Err(_) => Ok(Vec::new(alloc)),
    }
}

/// Adds the facts that a type gives with an interface slot and an interface row.
fn add_interface(
    alloc: Global,
    k: &Known<'_>,
    rule: Rule,
    t: RowAt,
    b: RowAt,
    r: RowAt,
    facts: &mut Facts,
) -> Result<(), NoMemory>
    requires { IsKnown k.now }
    ensures { OnOk result (facts.new ≡ facts.old ++ interface_by rule (recs_in k.now) t b r) }
{
    match rule {
        Rule::Runs => add_interface_runs(alloc, k.marker, k.slots, t, b, r, facts),
        Rule::Fills => add_interface_fills(alloc, k.marker, k.slots, t, b, r, facts),
    }
}

/// Adds the facts that a type gives with an interface slot and an interface row, where the slot is known.
#[tactic(auto, using(crate::proofs::lemmas::mark_known::Lists::none_more))]
fn add_slot(
    alloc: Global,
    k: &Known<'_>,
    rule: Rule,
    t: RowAt,
    r: RowAt,
    b: RowAt,
    facts: &mut Facts,
) -> Result<(), NoMemory>
    requires { IsKnown k.now }
    ensures { OnOk result (facts.new ≡ facts.old ++ slot_gives (recs_in k.now) (knows k.now) (λ b. interface_by rule (recs_in k.now) t b r) b) }
{
    let is = is_known_row(k, Kind::Method, b)?;
    if is {
        return add_interface(alloc, k, rule, t, b, r, facts);
    }
    Ok(())
}

/// Adds the facts that a type gives with an interface row and those of these slots that are known.
fn add_slots(
    alloc: Global,
    k: &Known<'_>,
    rule: Rule,
    t: RowAt,
    r: RowAt,
    bs: &[RowAt],
    facts: &mut Facts,
) -> Result<(), NoMemory>
    requires { IsKnown k.now }
    ensures { OnOk result (facts.new ≡ facts.old ++ flat_map (slot_gives (recs_in k.now) (knows k.now) (λ b. interface_by rule (recs_in k.now) t b r)) bs.now) }
{
    for b in bs {
        add_slot(alloc, k, rule, t, r, *b, facts)?;
    }
    Ok(())
}

/// Adds the facts that a type gives with an interface row and the slots of its interfaces.
fn add_row_slots(
    alloc: Global,
    k: &Known<'_>,
    rule: Rule,
    t: RowAt,
    r: RowAt,
    facts: &mut Facts,
) -> Result<(), NoMemory>
    requires { IsKnown k.now }
    ensures { OnOk result (facts.new ≡ facts.old ++ flat_map (slot_gives (recs_in k.now) (knows k.now) (λ b. interface_by rule (recs_in k.now) t b r)) (row_methods (recs_in k.now) r)) }
{
    let bs = row_methods(alloc, k.marker, r)?;
    add_slots(alloc, k, rule, t, r, bs.as_slice(), facts)?;
    Ok(())
}

/// Adds the facts that a type gives with an interface row, where the row is known.
#[tactic(auto, using(crate::proofs::lemmas::mark_known::Lists::none_more))]
fn add_row(
    alloc: Global,
    k: &Known<'_>,
    rule: Rule,
    t: RowAt,
    r: RowAt,
    facts: &mut Facts,
) -> Result<(), NoMemory>
    requires { IsKnown k.now }
    ensures { OnOk result (facts.new ≡ facts.old ++ row_gives (recs_in k.now) (knows k.now) (interface_by rule (recs_in k.now) t) r) }
{
    let is = is_known_row(k, Kind::Interface, r)?;
    if is {
        return add_row_slots(alloc, k, rule, t, r, facts);
    }
    Ok(())
}

/// Adds the facts that a type gives with those of these interface rows that are known.
fn add_rows(
    alloc: Global,
    k: &Known<'_>,
    rule: Rule,
    t: RowAt,
    rs: &[RowAt],
    facts: &mut Facts,
) -> Result<(), NoMemory>
    requires { IsKnown k.now }
    ensures { OnOk result (facts.new ≡ facts.old ++ flat_map (row_gives (recs_in k.now) (knows k.now) (interface_by rule (recs_in k.now) t)) rs.now) }
{
    for r in rs {
        add_row(alloc, k, rule, t, *r, facts)?;
    }
    Ok(())
}

/// Adds the facts that a type gives with the interface rows of one of its bases.
fn add_own(
    alloc: Global,
    k: &Known<'_>,
    rule: Rule,
    t: RowAt,
    c: RowAt,
    facts: &mut Facts,
) -> Result<(), NoMemory>
    requires { IsKnown k.now }
    ensures { OnOk result (facts.new ≡ facts.old ++ flat_map (row_gives (recs_in k.now) (knows k.now) (interface_by rule (recs_in k.now) t)) (own_rows (recs_in k.now) c)) }
{
    let rs = own_rows(alloc, k.marker, c)?;
    add_rows(alloc, k, rule, t, rs.as_slice(), facts)?;
    Ok(())
}

/// Adds the facts that a type gives with the interface rows of these types.
pub(crate) fn add_with_rows(
    alloc: Global,
    k: &Known<'_>,
    rule: Rule,
    t: RowAt,
    types: &[RowAt],
    facts: &mut Facts,
) -> Result<(), NoMemory>
    requires { IsKnown k.now }
    ensures { OnOk result (facts.new ≡ facts.old ++ flat_map (λ c. flat_map (row_gives (recs_in k.now) (knows k.now) (interface_by rule (recs_in k.now) t)) (own_rows (recs_in k.now) c)) types.now) }
{
    for c in types {
        add_own(alloc, k, rule, t, *c, facts)?;
    }
    Ok(())
}
