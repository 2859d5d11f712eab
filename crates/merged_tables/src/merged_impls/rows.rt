//! MethodImpl rows.

ghost use Rattle.std.specs.Prelude.{◌≡◌, ◌++◌, Some, slice_get, IfOk, OnOk};
ghost use Rattle.std.specs.List.{flat_map};
ghost use Rattle.std.specs.Option.{option_copied};
ghost use Rattle.il_base.specs.declared.world_model.members.MethodImplRow.{MethodImplRow};
ghost use Rattle.mark_parts.specs.mark_tables.Assemblies.{IsAssembly, IsMarker, recs_of, place_of, rec_of, all_of};
ghost use Rattle.il_base.specs.declared.table.TheConstants.{TYPE_DEF};
ghost use Rattle.merge_plan.specs.kept_tables.Places.{token_in};
ghost use Rattle.rules.specs.merge_rules.Sorted.{by_key};
ghost use Rattle.merge_plan.specs.Kept.{kept_by};
ghost use Rattle.merged_tables.specs.merged_impls.Impls.{impl_by, impl_of, impls_in, method_impls_by};

use crate::merged_impls::bodies::has_kept_body;
use il_base::world_model::{AsmRec, MethodImplRow, table_of};
use il_base::{NoMemory, Seq, table};
use mark_parts::mark_tables::assembly::Assembly;
use mark_parts::mark_tables::marker::Marker;
use merge_plan::kept_tables::tables::KeptTables;
use merge_plan::moved_parts::NewTokens;
use merge_plan::{KeptItems, inputs};
use std::alloc::Global;
use type_tables::member_search::counted::row_of;

/// What the token of a kept class becomes; None where it goes, or where it is of another table.
fn class(tables: &KeptTables, asm: u32, token: u32) -> Option<u32>
    ensures { result ≡ token_in TYPE_DEF tables.now.items.types asm token }
{
    if table_of(token) != table::TYPE_DEF {
        return None;
    }
    tables.token(asm, token)
}

/// Puts a row whose body stays at the end, where its class is kept.
fn push_kept(
    tables: &KeptTables,
    tokens: &NewTokens,
    asm: u32,
    row: &MethodImplRow,
    rows: &mut Vec<MethodImplRow>,
) -> Result<(), NoMemory>
    ensures { OnOk result (rows.new.items ≡ rows.old.items ++ impl_by tables.now tokens.now asm row.now) }
{
    let Some(class) = class(tables, asm, row.class) else {
        return Ok(());
    };
    rows.push(MethodImplRow {
        class,
        body: tokens.callees.get(row.body),
        declaration: tokens.callees.get(row.declaration),
    })?;
    Ok(())
}

/// Puts a row at the end, where its class is kept and its body stays.
fn push_impl(
    recs: &[AsmRec],
    asm: &Assembly<'_>,
    kept: &KeptItems,
    tables: &KeptTables,
    tokens: &NewTokens,
    row: &MethodImplRow,
    rows: &mut Vec<MethodImplRow>,
) -> Result<(), NoMemory>
    requires { IsAssembly asm.now }
    ensures { OnOk result (rows.new.items ≡ rows.old.items ++ impl_of recs.now (kept_by kept.now) tables.now tokens.now (recs_of asm.now) (place_of asm.now) (rec_of asm.now) row.now) }
{
    let stays = has_kept_body(recs, asm, kept, row.body)?;
    if !stays {
        return Ok(());
    }
    push_kept(tables, tokens, asm.scope.asm, row, rows)?;
    Ok(())
}

/// Puts the rows of an assembly at the end.
fn push_all(
    recs: &[AsmRec],
    asm: &Assembly<'_>,
    kept: &KeptItems,
    tables: &KeptTables,
    tokens: &NewTokens,
    rows: &mut Vec<MethodImplRow>,
) -> Result<(), NoMemory>
    requires { IsAssembly asm.now }
    ensures { OnOk result (rows.new.items ≡ rows.old.items ++ flat_map (impl_of recs.now (kept_by kept.now) tables.now tokens.now (recs_of asm.now) (place_of asm.now) (rec_of asm.now)) (rec_of asm.now).method_impl) }
{
    let rec = asm.scope.rec;
    for row in rec.method_impl.as_slice() {
        push_impl(recs, asm, kept, tables, tokens, row, rows)?;
    }
    Ok(())
}

/// The new tokens of the assembly in a place, from 0.
fn tokens_at(tokens: &[NewTokens], asm: u32) -> Option<&NewTokens>
    ensures { option_copied result ≡ slice_get tokens.now asm }
{
    tokens.get(asm as usize)
}

/// Puts the rows of the assembly in a place at the end.
fn push_impls(
    marker: &Marker<'_>,
    kept: &KeptItems,
    tables: &KeptTables,
    tokens: &[NewTokens],
    place: u32,
    rec: &AsmRec,
    rows: &mut Vec<MethodImplRow>,
) -> Result<(), NoMemory>
    requires marker { IsMarker marker.now }
    requires here { slice_get (all_of marker.now) place ≡ Some rec.now }
    ensures { OnOk result (rows.new.items ≡ rows.old.items ++ impls_in (all_of marker.now) (kept_by kept.now) tables.now tokens.now place rec.now) }
{
    let recs = marker.tables.world.recs.as_slice();
    let Some(new) = tokens_at(tokens, place) else {
        return Ok(());
    };
    let Some(asm) = marker.assembly_at(place) else {
        return Ok(());
    };
    push_all(recs, &asm, kept, tables, new, rows)?;
    Ok(())
}

/// In the order of their classes, those of one class in the order in which they were.
fn in_order(mut rows: Vec<MethodImplRow>) -> Result<Vec<MethodImplRow>, NoMemory>
    ensures { IfOk result (λ sorted. sorted.items ≡ by_key (λ (row : MethodImplRow). row.class) rows.items) }
{
    rows.sort_by_key(|row| row.class)?;
    Ok(rows)
}

/// The rows of the output. `tokens` has the new tokens of each assembly.
pub fn method_impls(
    alloc: Global,
    marker: &Marker<'_>,
    kept: &KeptItems,
    tables: &KeptTables,
    tokens: &[NewTokens],
) -> Result<Seq<MethodImplRow>, NoMemory>
    requires { IsMarker marker.now }
    ensures { IfOk result (λ rows. rows ≡ method_impls_by (all_of marker.now) (kept_by kept.now) tables.now tokens.now) }
{
    let recs = marker.tables.world.recs.as_slice();
    let mut rows = Vec::new(alloc);
    for (a, rec) in inputs(recs).iter().enumerate() {
        let place = row_of(a)?;
        push_impls(marker, kept, tables, tokens, place, rec, &mut rows)?;
    }
    let sorted = in_order(rows)?;
    Ok(Seq::from_vec(sorted))
}
