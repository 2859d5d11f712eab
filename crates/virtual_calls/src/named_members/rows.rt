//! The members of a kind that the definition of a type has, all or those of a name.

ghost use Rattle.std.specs.Prelude.{◌≡◌, ◌-◌, Some, None, IfOk};
ghost use Rattle.type_tables.specs.member_search.Names.{AreNames};
ghost use Rattle.type_tables.specs.Tables.{AreRowTables, IsTables};
ghost use Rattle.virtual_calls.specs.declared.named_members.kinds.Kind.TheVariants as Kind;
ghost use Rattle.virtual_calls.specs.named_members.Kinds.{has_name, named_from, named_in, named_at, named_rows};

use crate::named_members::kinds::{Kind, Mapped, is_wanted};
use crate::named_members::mapped;
use crate::named_members::mapped::named_places;
use crate::named_members::runs::in_run;
use il_base::world_model::{AsmRec, TypeDefRow, TypeExpr};
use il_base::{NoMemory, Text};
use rules::link_rules::RowAt;
use std::alloc::Global;
use type_tables::member_search::bases::definition;
use type_tables::member_search::names::{Names, rows_at};
use type_tables::member_search::owners::Run;
use type_tables::tables::{Rows, Tables};

/// The fields with a name of the type in a row.
fn fields_called(
    alloc: Global,
    rec: &AsmRec,
    names: &Names<'_>,
    name: &[u8],
    at: RowAt,
    row: &TypeDefRow,
) -> Result<Vec<RowAt>, NoMemory>
    requires { AreNames rec.now names.now }
    ensures { IfOk result (λ found. found.items ≡ named_in Kind.Field rec.now (Some name.now) at row.now) }
{
    let run = Run {
        first: row.field_list_first,
        end: row.field_list_end,
    };
    let rows = rows_at(&names.fields, name);
    let found = in_run(alloc, at.asm, rows, run)?;
    Ok(found)
}

/// The methods with a name of the type in a row.
fn methods_called(
    alloc: Global,
    rec: &AsmRec,
    names: &Names<'_>,
    name: &[u8],
    at: RowAt,
    row: &TypeDefRow,
) -> Result<Vec<RowAt>, NoMemory>
    requires { AreNames rec.now names.now }
    ensures { IfOk result (λ found. found.items ≡ named_in Kind.Method rec.now (Some name.now) at row.now) }
{
    let run = Run {
        first: row.method_list_first,
        end: row.method_list_end,
    };
    let rows = rows_at(&names.methods, name);
    let found = in_run(alloc, at.asm, rows, run)?;
    Ok(found)
}

/// Whether a row, from 0, has a wanted name.
fn has_name(rec: &AsmRec, kind: Kind, wanted: &Option<Text>, k: u32) -> bool
    ensures { result ≡ has_name kind rec.now wanted.now k }
{
    match kind {
        Kind::Field => match rec.field.get(k as usize) {
            Some(field) => is_wanted(wanted, field.name.as_slice()),
            None => false,
        },
        Kind::Method => match rec.method_def.get(k as usize) {
            Some(method) => is_wanted(wanted, method.name.as_slice()),
            None => false,
        },
        Kind::Property => mapped::has_name(rec, Mapped::Property, wanted, k),
        Kind::Event => mapped::has_name(rec, Mapped::Event, wanted, k),
    }
}

/// The rows from `start` to before `end` that have a wanted name.
fn named_from(
    alloc: Global,
    rec: &AsmRec,
    kind: Kind,
    asm: u32,
    wanted: &Option<Text>,
    start: u32,
    end: u32,
) -> Result<Vec<RowAt>, NoMemory>
    ensures { IfOk result (λ found. found.items ≡ named_from kind rec.now asm wanted.now start (end - start)) }
{
    let mut found = Vec::new(alloc);
    for row in start..end {
        if has_name(rec, kind, wanted, row) {
            found.push(RowAt { asm, row })?;
        }
    }
    Ok(found)
}

/// All fields of the type in a row.
fn all_fields(
    alloc: Global,
    rec: &AsmRec,
    at: RowAt,
    row: &TypeDefRow,
) -> Result<Vec<RowAt>, NoMemory>
    ensures { IfOk result (λ found. found.items ≡ named_in Kind.Field rec.now None at row.now) }
{
    let start = row.field_list_first.saturating_sub(1);
    let end = start + row.field_list_end.saturating_sub(row.field_list_first);
    let count = u32::try_from(rec.field.len()).unwrap_or(u32::MAX);
    let found = named_from(
        alloc,
        rec,
        Kind::Field,
        at.asm,
        &None,
        start,
        end.min(count),
    )?;
    Ok(found)
}

/// All methods of the type in a row.
fn all_methods(
    alloc: Global,
    rec: &AsmRec,
    at: RowAt,
    row: &TypeDefRow,
) -> Result<Vec<RowAt>, NoMemory>
    ensures { IfOk result (λ found. found.items ≡ named_in Kind.Method rec.now None at row.now) }
{
    let start = row.method_list_first.saturating_sub(1);
    let end = start + row.method_list_end.saturating_sub(row.method_list_first);
    let count = u32::try_from(rec.method_def.len()).unwrap_or(u32::MAX);
    let found = named_from(
        alloc,
        rec,
        Kind::Method,
        at.asm,
        &None,
        start,
        end.min(count),
    )?;
    Ok(found)
}

/// The fields of the type in a row, all or those of a name.
fn fields_in(
    alloc: Global,
    rec: &AsmRec,
    names: &Names<'_>,
    wanted: &Option<Text>,
    at: RowAt,
    row: &TypeDefRow,
) -> Result<Vec<RowAt>, NoMemory>
    requires { AreNames rec.now names.now }
    ensures { IfOk result (λ found. found.items ≡ named_in Kind.Field rec.now wanted.now at row.now) }
{
    match wanted {
        Some(name) => fields_called(alloc, rec, names, name.as_slice(), at, row),
        None => all_fields(alloc, rec, at, row),
    }
}

/// The methods of the type in a row, all or those of a name.
fn methods_in(
    alloc: Global,
    rec: &AsmRec,
    names: &Names<'_>,
    wanted: &Option<Text>,
    at: RowAt,
    row: &TypeDefRow,
) -> Result<Vec<RowAt>, NoMemory>
    requires { AreNames rec.now names.now }
    ensures { IfOk result (λ found. found.items ≡ named_in Kind.Method rec.now wanted.now at row.now) }
{
    match wanted {
        Some(name) => methods_called(alloc, rec, names, name.as_slice(), at, row),
        None => all_methods(alloc, rec, at, row),
    }
}

/// The members with a wanted name of the type in a row: fields and methods of one name by the rows with it, properties and events by the
/// rows of the maps.
fn named_in(
    alloc: Global,
    rows: &Rows<'_>,
    names: &Names<'_>,
    kind: Kind,
    wanted: &Option<Text>,
    at: RowAt,
    row: &TypeDefRow,
) -> Result<Vec<RowAt>, NoMemory>
    requires names { AreNames rows.now.scope.rec.now names.now }
    requires tables { AreRowTables rows.now.scope.rec.now rows.now.tables.now }
    ensures { IfOk result (λ found. found.items ≡ named_in kind rows.now.scope.rec.now wanted.now at row.now) }
{
    let rec = rows.scope.rec;
    match kind {
        Kind::Field => fields_in(alloc, rec, names, wanted, at, row),
        Kind::Method => methods_in(alloc, rec, names, wanted, at, row),
        Kind::Property => named_places(alloc, rec, rows.tables, Mapped::Property, at, wanted),
        Kind::Event => named_places(alloc, rec, rows.tables, Mapped::Event, at, wanted),
    }
}

/// The members with a wanted name of the type in a row.
fn named_at(
    alloc: Global,
    tables: &Tables<'_>,
    kind: Kind,
    wanted: &Option<Text>,
    at: RowAt,
) -> Result<Vec<RowAt>, NoMemory>
    requires { IsTables tables.now }
    ensures { IfOk result (λ found. found.items ≡ named_at tables.now.world.now.recs wanted.now kind at) }
{
    let Some(rows) = tables.rows_at(at.asm) else {
        return Ok(Vec::new(alloc));
    };
    let rec = rows.scope.rec;
    let Some(row) = rec.type_def.get(at.row as usize) else {
        return Ok(Vec::new(alloc));
    };
    let names = &rows.scope.linked.names[at.asm as usize];
    let found = named_in(alloc, &rows, names, kind, wanted, at, row)?;
    Ok(found)
}

/// The members with a wanted name that the definition of a type has.
pub fn named_rows(
    alloc: Global,
    tables: &Tables<'_>,
    kind: Kind,
    wanted: &Option<Text>,
    ty: &TypeExpr,
) -> Result<Vec<RowAt>, NoMemory>
    requires { IsTables tables.now }
    ensures { IfOk result (λ found. found.items ≡ named_rows tables.now.world.now.recs wanted.now kind ty.now) }
{
    match definition(tables.world.recs.as_slice(), ty) {
        Ok(Some(at)) => named_at(alloc, tables, kind, wanted, at),
        Ok(None) => Ok(Vec::new(alloc)),
        Err(error) => Err(error),
    }
}
