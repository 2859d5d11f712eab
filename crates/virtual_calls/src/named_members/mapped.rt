//! Properties and events of a type: the rows with a wanted name of its runs, by the rows of PropertyMap or EventMap that belong to it.

ghost use Rattle.std.specs.Prelude.{◌≡◌, ℕ, ◌-◌, ◌++◌, ◌≤◌, slice_get, IfOk, OnOk};
ghost use Rattle.std.specs.List.{flat_map};
ghost use Rattle.type_tables.specs.Tables.{AreRowTables};
ghost use Rattle.virtual_calls.specs.named_members.Mapped.{count_in, map_rows, run_at, has_name, named_from, run_length, named_in_run, named_under, named_places};

use crate::named_members::kinds::{Mapped, is_wanted};
use il_base::world_model::{AsmRec, token_of};
use il_base::{NoMemory, Text, table};
use rules::link_rules::RowAt;
use std::alloc::Global;
use type_tables::member_search::owners::Run;
use type_tables::tables::RowTables;

/// How many such rows an assembly has.
fn count_in(rec: &AsmRec, mapped: Mapped) -> usize
    ensures { result ≡ count_in mapped rec.now }
{
    match mapped {
        Mapped::Property => rec.property.len(),
        Mapped::Event => rec.event.len(),
    }
}

/// The rows of the map, from 0, that belong to a type, by its token.
fn map_rows<'a>(tables: &'a RowTables, mapped: Mapped, token: u32) -> &'a [u32]
    ensures { result.now ≡ map_rows mapped tables.now token }
{
    match mapped {
        Mapped::Property => tables.properties.rows_with(token),
        Mapped::Event => tables.events.rows_with(token),
    }
}

/// The run of a row, from 0, of the map.
fn run_at(rec: &AsmRec, mapped: Mapped, k: u32) -> Option<Run>
    ensures { result ≡ run_at mapped rec.now k }
{
    match mapped {
        Mapped::Property => match rec.property_map.get(k as usize) {
            Some(row) => Some(Run {
                first: row.property_list_first,
                end: row.property_list_end,
            }),
            None => None,
        },
        Mapped::Event => match rec.event_map.get(k as usize) {
            Some(row) => Some(Run {
                first: row.event_list_first,
                end: row.event_list_end,
            }),
            None => None,
        },
    }
}

/// Whether a row, from 0, has a wanted name.
pub fn has_name(rec: &AsmRec, mapped: Mapped, wanted: &Option<Text>, k: u32) -> bool
    ensures { result ≡ has_name mapped rec.now wanted.now k }
{
    match mapped {
        Mapped::Property => match rec.property.get(k as usize) {
            Some(property) => is_wanted(wanted, property.name.as_slice()),
            None => false,
        },
        Mapped::Event => match rec.event.get(k as usize) {
            Some(event) => is_wanted(wanted, event.name.as_slice()),
            None => false,
        },
    }
}

/// Appends the rows with a wanted name to those found, of the rows from `start` to before `end`.
fn add_named(
    rec: &AsmRec,
    mapped: Mapped,
    asm: u32,
    wanted: &Option<Text>,
    start: u32,
    end: u32,
    found: &mut Vec<RowAt>,
) -> Result<(), NoMemory>
    ensures { OnOk result (found.new.items ≡ found.old.items ++ named_from mapped rec.now asm wanted.now start (end - start)) }
{
    for row in start..end {
        if has_name(rec, mapped, wanted, row) {
            found.push(RowAt { asm, row })?;
        }
    }
    Ok(())
}

/// Appends the rows of a run that have a wanted name to those found.
fn add_in_run(
    rec: &AsmRec,
    mapped: Mapped,
    asm: u32,
    wanted: &Option<Text>,
    run: Run,
    found: &mut Vec<RowAt>,
) -> Result<(), NoMemory>
    ensures { OnOk result (found.new.items ≡ found.old.items ++ named_in_run mapped rec.now asm wanted.now run) }
{
    let start = run.first.saturating_sub(1);
    let end = start + run.end.saturating_sub(run.first);
    let count = u32::try_from(count_in(rec, mapped)).unwrap_or(u32::MAX);
    add_named(rec, mapped, asm, wanted, start, end.min(count), found)?;
    Ok(())
}

/// The rows of a run that have a wanted name, of each of these rows of the map.
fn named_under(
    alloc: Global,
    rec: &AsmRec,
    mapped: Mapped,
    asm: u32,
    wanted: &Option<Text>,
    rows: &[u32],
) -> Result<Vec<RowAt>, NoMemory>
    ensures { IfOk result (λ found. found.items ≡ flat_map (named_under mapped rec.now asm wanted.now) rows.now) }
{
    let mut found = Vec::new(alloc);
    for k in rows {
        if let Some(run) = run_at(rec, mapped, *k) {
            add_in_run(rec, mapped, asm, wanted, run, &mut found)?;
        }
    }
    Ok(found)
}

/// The properties or events with a wanted name of the type in a row, from 0.
pub fn named_places(
    alloc: Global,
    rec: &AsmRec,
    tables: &RowTables,
    mapped: Mapped,
    at: RowAt,
    wanted: &Option<Text>,
) -> Result<Vec<RowAt>, NoMemory>
    requires { AreRowTables rec.now tables.now }
    ensures { IfOk result (λ found. found.items ≡ named_places mapped rec.now wanted.now at) }
{
    let token = token_of(table::TYPE_DEF, at.row as usize)?;
    let rows = map_rows(tables, mapped, token);
    let found = named_under(alloc, rec, mapped, at.asm, wanted, rows)?;
    Ok(found)
}
