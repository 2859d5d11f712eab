//! A field of a row.

ghost use Rattle.std.specs.Prelude.{◌≡◌, IfOk};
ghost use Rattle.std.specs.List.{flat_map};
ghost use Rattle.std.specs.Option.{option_copied};
ghost use Rattle.il_base.specs.world_model.Worlds.{known_then, sig_expr};
ghost use Rattle.rules.specs.link_rules.Types.{at_row};
ghost use Rattle.rules.specs.link_rules.Cycles.{is_static_field};
ghost use Rattle.rules.specs.link_rules.Signatures.{names_at};
ghost use Rattle.mark_parts.specs.mark_tables.Assemblies.{recs_of, place_of, rec_of, all_of, IsAssembly, IsMarker};
ghost use Rattle.rules.specs.view_rules.Methods.{has_explicit_layout, field_type, bytes_by, first_bytes, first_of, field_owner, field_by, field_at};
ghost use Rattle.il_base.specs.first_places.Places.{AreFirst};
ghost use Rattle.cil_world.specs.world_definitions.Fields.{fields_with_rows, fields_with_bytes, row_with, first_by, is_explicit_row, AreBytesAt};

use crate::world_methods::outside::{is_core, is_global, type_row_at};
use il_base::cil_values::{FieldDef, First};
use il_base::first_places::Places;
use il_base::world_model::{
    AsmRec, BadKind, FieldRow, FieldRvaRow, Known, TypeDefRow, TypeExpr, token_of,
};
use il_base::{
    NoMemory, Seq, Sig, Text, field_flags, has_flag, has_type_flag, outside, table, type_flags,
};
use mark_parts::mark_tables::assembly::Assembly;
use mark_parts::mark_tables::marker::Marker;
use rules::link_rules::RowAt;
use rules::view_rules::seen_flags;
use std::alloc::Global;
use type_tables::member_search::method_types::open_type;

fn is_static_field(f: &FieldRow) -> bool
    ensures { result ≡ is_static_field f.now }
{
    has_flag(f.flags, field_flags::STATIC)
}

fn is_explicit_row(t: &TypeDefRow) -> bool
    ensures { result ≡ is_explicit_row t.now }
{
    has_type_flag(t.flags, type_flags::EXPLICIT_LAYOUT)
}

/// Whether the type of a field has explicit layout (II.10.1.2).
fn has_explicit_layout(all: &[AsmRec], owner: Option<RowAt>) -> bool
    ensures { result ≡ has_explicit_layout all.now owner }
{
    match owner {
        None => false,
        Some(t) => match type_row_at(all, t) {
            None => false,
            Some(row) => is_explicit_row(row),
        },
    }
}

/// The type that a field's signature names, or why it names none.
fn signature_type(
    alloc: Global,
    asm: &Assembly<'_>,
    sig: &Known<Sig>,
) -> Result<Known<TypeExpr>, NoMemory>
    requires { IsAssembly asm.now }
    ensures { IfOk result (λ ty. ty ≡ known_then (sig_expr (names_at (recs_of asm.now) (place_of asm.now) (rec_of asm.now))) sig.now) }
{
    match sig {
        Known::Bad(why) => Ok(Known::Bad(*why)),
        Known::Good(sig) => open_type(alloc, &asm.scope, sig),
    }
}

/// The type of a field, by its row from 0. A global field, and an instance field of a type with explicit layout, have a bad one.
fn field_type(
    alloc: Global,
    asm: &Assembly<'_>,
    row: u32,
    owner: Option<RowAt>,
    f: &FieldRow,
) -> Result<Known<TypeExpr>, NoMemory>
    requires { IsAssembly asm.now }
    ensures { IfOk result (λ ty. ty ≡ field_type (recs_of asm.now) (at_row (place_of asm.now) row) (rec_of asm.now) owner f.now) }
{
    let all = asm.scope.linked.all;
    if is_global(all, owner) {
        return Ok(Known::Bad(BadKind::Outside(outside::GLOBAL_MEMBER)));
    }
    if !is_static_field(f) && has_explicit_layout(all, owner) {
        return Ok(Known::Bad(BadKind::Outside(outside::LAYOUT)));
    }
    signature_type(alloc, asm, &f.signature)
}

/// The first row of FieldRVA of a field (II.22.18).
fn row_with<'a>(rec: &'a AsmRec, places: &Places, token: u32) -> Option<&'a FieldRvaRow>
    requires { AreFirst (fields_with_bytes rec.now) places.now }
    ensures { option_copied result ≡ row_with rec.now token }
{
    match places.get(token) {
        None => None,
        Some(place) => rec.field_rva.get(place),
    }
}

fn known_bytes(alloc: Global, bytes: &Known<Text>) -> Result<Known<Text>, NoMemory>
    ensures { IfOk result (λ made. made ≡ bytes.now) }
{
    match bytes {
        Known::Bad(why) => Ok(Known::Bad(*why)),
        Known::Good(bytes) => {
            let bytes = Seq::from_slice(alloc, bytes.as_slice())?;
            Ok(Known::Good(bytes))
        }
    }
}

/// What a field with this row of FieldRVA has at first.
fn first_by(alloc: Global, row: Option<&FieldRvaRow>) -> Result<First, NoMemory>
    ensures { IfOk result (λ first. first ≡ first_by (option_copied row.entry)) }
{
    match row {
        None => Ok(First::Blank),
        Some(row) => {
            let bytes = known_bytes(alloc, &row.bytes)?;
            Ok(First::Bytes(bytes))
        }
    }
}

/// What a field of an input has at first, by its token.
fn first_in(alloc: Global, rec: &AsmRec, places: &Places, token: u32) -> Result<First, NoMemory>
    requires { AreFirst (fields_with_bytes rec.now) places.now }
    ensures { IfOk result (λ first. first ≡ first_bytes (flat_map (bytes_by token) rec.now.field_rva)) }
{
    let row = row_with(rec, places, token);
    let first = first_by(alloc, row)?;
    Ok(first)
}

/// What a field has at first, by its row from 0: String.Empty, the one field of the core library, has the empty text. A global
/// field counts as bad.
fn first_of(
    alloc: Global,
    asm: &Assembly<'_>,
    places: &Places,
    row: u32,
    owner: Option<RowAt>,
) -> Result<First, NoMemory>
    requires { AreFirst (fields_with_bytes (rec_of asm.now)) places.now }
    ensures { IfOk result (λ first. first ≡ first_of (recs_of asm.now) (at_row (place_of asm.now) row) (rec_of asm.now) owner) }
{
    if is_core(asm) {
        return Ok(First::EmptyText);
    }
    if is_global(asm.scope.linked.all, owner) {
        return Ok(First::Bytes(Known::Bad(BadKind::Outside(outside::GLOBAL_MEMBER))));
    }
    let token = token_of(table::FIELD, row as usize)?;
    let first = first_in(alloc, asm.scope.rec, places, token)?;
    Ok(first)
}

/// The type in whose run a field is.
fn field_owner(asm: &Assembly<'_>, row: u32) -> Result<Option<RowAt>, NoMemory>
    requires { IsAssembly asm.now }
    ensures { IfOk result (λ owner. owner ≡ field_owner (at_row (place_of asm.now) row) (rec_of asm.now)) }
{
    match asm.owner_of_field(row) {
        Err(error) => Err(error),
        Ok(None) => Ok(None),
        Ok(Some(t)) => Ok(Some(RowAt {
            asm: asm.scope.asm,
            row: t,
        })),
    }
}

/// A field, by its row from 0.
fn field_by(
    alloc: Global,
    asm: &Assembly<'_>,
    places: &Places,
    row: u32,
    f: &FieldRow,
) -> Result<FieldDef, NoMemory>
    requires is { IsAssembly asm.now }
    requires places { AreFirst (fields_with_bytes (rec_of asm.now)) places.now }
    ensures { IfOk result (λ made. made ≡ field_by (recs_of asm.now) (at_row (place_of asm.now) row) (rec_of asm.now) f.now) }
{
    let owner = field_owner(asm, row)?;
    let typ = field_type(alloc, asm, row, owner, f)?;
    let first = first_of(alloc, asm, places, row, owner)?;
    Ok(FieldDef {
        flags: f.flags & seen_flags::FIELD,
        typ,
        first,
    })
}

/// The field of a row of an assembly. None for a row that isn't there.
pub(crate) fn field_at(
    alloc: Global,
    marker: &Marker<'_>,
    places: &Places,
    at: RowAt,
) -> Result<Option<FieldDef>, NoMemory>
    requires is { IsMarker marker.now }
    requires places { AreBytesAt (all_of marker.now) at.asm places.now }
    ensures { IfOk result (λ f. f ≡ field_at (all_of marker.now) at) }
{
    let Some(asm) = marker.assembly_at(at.asm) else {
        return Ok(None);
    };
    let Some(f) = asm.scope.rec.field.get(at.row as usize) else {
        return Ok(None);
    };
    let made = field_by(alloc, &asm, places, at.row, f)?;
    Ok(Some(made))
}

fn fields_with_rows(alloc: Global, rows: &[FieldRvaRow]) -> Result<Vec<u32>, NoMemory>
    ensures { IfOk result (λ keys. keys.items ≡ fields_with_rows rows.now) }
{
    let mut keys = Vec::new(alloc);
    for row in rows {
        keys.push(row.field)?;
    }
    Ok(keys)
}

/// The first row of FieldRVA of each field of an assembly.
pub(crate) fn bytes_at(alloc: Global, marker: &Marker<'_>, asm: u32) -> Result<Places, NoMemory>
    requires { IsMarker marker.now }
    ensures { IfOk result (AreBytesAt (all_of marker.now) asm) }
{
    match marker.assembly_at(asm) {
        None => Places::of(alloc, &[]),
        Some(asm) => {
            let keys = fields_with_rows(alloc, asm.scope.rec.field_rva.as_slice())?;
            Places::of(alloc, keys.as_slice())
        }
    }
}
