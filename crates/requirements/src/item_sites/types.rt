//! Types with what they have.

ghost use Rattle.std.specs.Prelude.{◌≡◌, ◌++◌, IfOk, OnOk};
ghost use Rattle.std.specs.List.{flat_map, filter};
ghost use Rattle.rules.specs.type_rules.Rows.{fields_of_type, methods_of_type};
ghost use Rattle.rules.specs.mark_rules.Types.{parts_of_field, parts_of_impl};
ghost use Rattle.rules.specs.mark_rules.Properties.{parts_of_property, parts_of_event};
ghost use Rattle.rules.specs.mark_rules.Members.{properties_of_type, events_of_type, impls_of_type};
ghost use Rattle.mark_parts.specs.Items.{extends_parts};
ghost use Rattle.mark_parts.specs.mark_tables.Assemblies.{recs_of, place_of, rec_of, all_of, IsAssembly, IsMarker};
ghost use Rattle.site_kinds.specs.Known.{IsAnnotated};
ghost use Rattle.rules.specs.site_rules.Bodies.{head_parts};
ghost use Rattle.rules.specs.site_rules.Types.{is_bodiless, has_no_body, base_parts, parts_in_type, sites_in_type, type_sites};
ghost use Rattle.requirements.specs.item_sites.Impls.{impl_at};

use crate::generic_sites::named::put_parts;
use crate::item_sites::heads::add_head;
use il_base::world_model::{AsmRec, Known, token_of};
use il_base::{Body, NoMemory, Seq, TypeId, table};
use mark_parts::items::{
    add_parts_of_event, add_parts_of_field, add_parts_of_impl, add_parts_of_property,
};
use mark_parts::mark_facts::parts::Parts;
use mark_parts::mark_rows::members::{
    events_of_type, fields_of_type, methods_of_type, properties_of_type,
};
use mark_parts::mark_tables::assembly::Assembly;
use mark_parts::mark_tables::marker::Marker;
use mark_parts::tokens::add_type_token;
use rules::link_rules::RowAt;
use rules::site_rules::Site;
use site_kinds::known::Annotated;
use std::alloc::Global;
use type_tables::member_search::homes::type_home;
use type_tables::methods::method_row_at;

/// Puts what the Extends of a type names at the end, by the type's row from 0 and its token.
#[tactic(auto, using(crate::proofs::lemmas::item_sites::Lists::none_more))]
fn add_extends(
    alloc: Global,
    asm: &Assembly<'_>,
    k: u32,
    row: u32,
    parts: &mut Parts,
) -> Result<(), NoMemory>
    requires { IsAssembly asm.now }
    ensures { OnOk result (parts.new ≡ parts.old ++ extends_parts (recs_of asm.now) (place_of asm.now) (rec_of asm.now) k row) }
{
    let Some(t) = asm.scope.rec.type_def.get(k as usize) else {
        return Ok(());
    };
    if t.extends == 0 {
        return Ok(());
    }
    add_type_token(alloc, asm, row, 0, t.extends, parts)
}

/// Puts what a type extends at the end.
#[tactic(auto, using(crate::proofs::lemmas::item_sites::Lists::none_more))]
pub fn add_base(
    alloc: Global,
    marker: &Marker<'_>,
    at: RowAt,
    parts: &mut Parts,
) -> Result<(), NoMemory>
    requires { IsMarker marker.now }
    ensures { OnOk result (parts.new ≡ parts.old ++ base_parts (all_of marker.now) at) }
{
    let Some(asm) = marker.assembly_at(at.asm) else {
        return Ok(());
    };
    let row = token_of(table::TYPE_DEF, at.row as usize)?;
    add_extends(alloc, &asm, at.row, row, parts)
}

fn add_field_rows(
    alloc: Global,
    marker: &Marker<'_>,
    rows: &[RowAt],
    parts: &mut Parts,
) -> Result<(), NoMemory>
    requires { IsMarker marker.now }
    ensures { OnOk result (parts.new ≡ parts.old ++ flat_map (parts_of_field (all_of marker.now)) rows.now) }
{
    for at in rows {
        add_parts_of_field(alloc, marker, *at, parts)?;
    }
    Ok(())
}

fn add_fields(
    alloc: Global,
    marker: &Marker<'_>,
    at: RowAt,
    parts: &mut Parts,
) -> Result<(), NoMemory>
    requires { IsMarker marker.now }
    ensures { OnOk result (parts.new ≡ parts.old ++ flat_map (parts_of_field (all_of marker.now)) (fields_of_type (all_of marker.now) at)) }
{
    let rows = fields_of_type(alloc, marker, at)?;
    add_field_rows(alloc, marker, rows.as_slice(), parts)
}

fn add_property_rows(
    alloc: Global,
    marker: &Marker<'_>,
    rows: &[RowAt],
    parts: &mut Parts,
) -> Result<(), NoMemory>
    requires { IsMarker marker.now }
    ensures { OnOk result (parts.new ≡ parts.old ++ flat_map (parts_of_property (all_of marker.now)) rows.now) }
{
    for at in rows {
        add_parts_of_property(alloc, marker, *at, parts)?;
    }
    Ok(())
}

fn add_properties(
    alloc: Global,
    marker: &Marker<'_>,
    at: RowAt,
    parts: &mut Parts,
) -> Result<(), NoMemory>
    requires { IsMarker marker.now }
    ensures { OnOk result (parts.new ≡ parts.old ++ flat_map (parts_of_property (all_of marker.now)) (properties_of_type (all_of marker.now) at)) }
{
    let rows = properties_of_type(alloc, marker, at)?;
    add_property_rows(alloc, marker, rows.as_slice(), parts)
}

fn add_event_rows(
    alloc: Global,
    marker: &Marker<'_>,
    rows: &[RowAt],
    parts: &mut Parts,
) -> Result<(), NoMemory>
    requires { IsMarker marker.now }
    ensures { OnOk result (parts.new ≡ parts.old ++ flat_map (parts_of_event (all_of marker.now)) rows.now) }
{
    for at in rows {
        add_parts_of_event(alloc, marker, *at, parts)?;
    }
    Ok(())
}

fn add_events(
    alloc: Global,
    marker: &Marker<'_>,
    at: RowAt,
    parts: &mut Parts,
) -> Result<(), NoMemory>
    requires { IsMarker marker.now }
    ensures { OnOk result (parts.new ≡ parts.old ++ flat_map (parts_of_event (all_of marker.now)) (events_of_type (all_of marker.now) at)) }
{
    let rows = events_of_type(alloc, marker, at)?;
    add_event_rows(alloc, marker, rows.as_slice(), parts)
}

/// Puts a row of InterfaceImpl, from 0, at the end, where it is there.
#[tactic(auto, using(crate::proofs::lemmas::item_sites::Lists::none_more))]
fn add_impl(rec: &AsmRec, asm: u32, k: u32, found: &mut Vec<RowAt>) -> Result<(), NoMemory>
    ensures { OnOk result (found.new.items ≡ found.old.items ++ impl_at rec.now asm k) }
{
    match rec.interface_impl.get(k as usize) {
        None => Ok(()),
        Some(_row) => {
            found.push(RowAt { asm, row: k })?;
            Ok(())
        }
    }
}

fn add_impl_places(
    rec: &AsmRec,
    asm: u32,
    rows: &[u32],
    found: &mut Vec<RowAt>,
) -> Result<(), NoMemory>
    ensures { OnOk result (found.new.items ≡ found.old.items ++ flat_map (impl_at rec.now asm) rows.now) }
{
    for k in rows {
        add_impl(rec, asm, *k, found)?;
    }
    Ok(())
}

/// Puts the interface rows of a type at the end.
fn add_impls_of_type(marker: &Marker<'_>, at: RowAt, found: &mut Vec<RowAt>) -> Result<(), NoMemory>
    requires { IsMarker marker.now }
    ensures { OnOk result (found.new.items ≡ found.old.items ++ impls_of_type (all_of marker.now) at) }
{
    let Some(asm) = marker.assembly_at(at.asm) else {
        return Ok(());
    };
    let token = token_of(table::TYPE_DEF, at.row as usize)?;
    let rows = asm.of_types.interfaces.rows_with(token);
    add_impl_places(asm.scope.rec, at.asm, rows, found)?;
    Ok(())
}

/// The interface rows of a type.
fn impls_of_type(alloc: Global, marker: &Marker<'_>, at: RowAt) -> Result<Vec<RowAt>, NoMemory>
    requires { IsMarker marker.now }
    ensures { IfOk result (λ rows. rows.items ≡ impls_of_type (all_of marker.now) at) }
{
    let mut found = Vec::new(alloc);
    add_impls_of_type(marker, at, &mut found)?;
    Ok(found)
}

fn add_impl_rows(
    alloc: Global,
    marker: &Marker<'_>,
    rows: &[RowAt],
    parts: &mut Parts,
) -> Result<(), NoMemory>
    requires { IsMarker marker.now }
    ensures { OnOk result (parts.new ≡ parts.old ++ flat_map (parts_of_impl (all_of marker.now)) rows.now) }
{
    for at in rows {
        add_parts_of_impl(alloc, marker, *at, parts)?;
    }
    Ok(())
}

fn add_impls(
    alloc: Global,
    marker: &Marker<'_>,
    at: RowAt,
    parts: &mut Parts,
) -> Result<(), NoMemory>
    requires { IsMarker marker.now }
    ensures { OnOk result (parts.new ≡ parts.old ++ flat_map (parts_of_impl (all_of marker.now)) (impls_of_type (all_of marker.now) at)) }
{
    let rows = impls_of_type(alloc, marker, at)?;
    add_impl_rows(alloc, marker, rows.as_slice(), parts)
}

fn is_bodiless(body: &Option<Known<Body>>) -> bool
    ensures { result ≡ is_bodiless body.now }
{
    match body {
        None => true,
        Some(_) => false,
    }
}

fn has_no_body(recs: &[AsmRec], at: RowAt) -> bool
    ensures { result ≡ has_no_body recs.now at }
{
    match method_row_at(recs, at) {
        None => false,
        Some(m) => is_bodiless(&m.body),
    }
}

fn add_bodiless_rows(
    alloc: Global,
    marker: &Marker<'_>,
    rows: &[RowAt],
    parts: &mut Parts,
) -> Result<(), NoMemory>
    requires { IsMarker marker.now }
    ensures { OnOk result (parts.new ≡ parts.old ++ flat_map (head_parts (all_of marker.now)) (filter (has_no_body (all_of marker.now)) rows.now)) }
{
    for at in rows {
        if has_no_body(marker.tables.world.recs.as_slice(), *at) {
            add_head(alloc, marker, *at, parts)?;
        }
    }
    Ok(())
}

/// Puts the parts of the methods of a type that have no body at the end.
fn add_bodiless(
    alloc: Global,
    marker: &Marker<'_>,
    at: RowAt,
    parts: &mut Parts,
) -> Result<(), NoMemory>
    requires { IsMarker marker.now }
    ensures { OnOk result (parts.new ≡ parts.old ++ flat_map (head_parts (all_of marker.now)) (filter (has_no_body (all_of marker.now)) (methods_of_type (all_of marker.now) at))) }
{
    let rows = methods_of_type(alloc, marker, at)?;
    add_bodiless_rows(alloc, marker, rows.as_slice(), parts)
}

/// The parts of what a type has, methods with a body aside.
fn parts_in_type(alloc: Global, marker: &Marker<'_>, at: RowAt) -> Result<Parts, NoMemory>
    requires { IsMarker marker.now }
    ensures { IfOk result (λ parts. parts ≡ parts_in_type (all_of marker.now) at) }
{
    let mut parts = Parts::new(alloc);
    add_base(alloc, marker, at, &mut parts)?;
    add_fields(alloc, marker, at, &mut parts)?;
    add_impls(alloc, marker, at, &mut parts)?;
    add_properties(alloc, marker, at, &mut parts)?;
    add_events(alloc, marker, at, &mut parts)?;
    add_bodiless(alloc, marker, at, &mut parts)?;
    Ok(parts)
}

fn sites_in_type(
    alloc: Global,
    annotated: &Annotated<'_>,
    t: TypeId,
    at: RowAt,
) -> Result<Seq<Site>, NoMemory>
    requires { IsAnnotated annotated.now }
    ensures { IfOk result (λ sites. sites ≡ sites_in_type (all_of annotated.now.marker.now) t at) }
{
    let parts = parts_in_type(alloc, annotated.marker, at)?;
    let mut sites = Seq::new(alloc);
    put_parts(alloc, annotated, at.asm, Some(t), &parts, &mut sites)?;
    Ok(sites)
}

/// The sites of a type, of its fields, interface rows, properties and events, and of its methods without a body: generic arguments
/// for annotated parameters. A type that isn't there has none.
#[tactic(auto, unfolding(rules::specs::site_rules::Types::type_sites), using(crate::proofs::lemmas::item_sites::Lists::none_more))]
pub fn type_sites(
    alloc: Global,
    annotated: &Annotated<'_>,
    of: TypeId,
) -> Result<Seq<Site>, NoMemory>
    requires { IsAnnotated annotated.now }
    ensures { IfOk result (λ sites. sites ≡ type_sites (all_of annotated.now.marker.now) of) }
{
    let marker = annotated.marker;
    match type_home(marker.tables.world.recs.as_slice(), of) {
        Err(error) => Err(error),
        Ok(None) => Ok(Seq::new(alloc)),
        Ok(Some(at)) => sites_in_type(alloc, annotated, of, at),
    }
}
