//! The MethodSemantics rows of kept parents (II.22.28).

ghost use Rattle.std.specs.Prelude.{◌≡◌, ◌++◌, IfOk, OnOk};
ghost use Rattle.il_base.specs.declared.cli_format.column.CodedIndex.TheVariants.{HasSemantics};
ghost use Rattle.il_base.specs.cli_format.Tokens.{coded_of};
ghost use Rattle.rules.specs.merge_rules.Sorted.{by_key};
ghost use Rattle.il_base.specs.declared.world_model.members.MethodSemanticsRow.{MethodSemanticsRow};
ghost use Rattle.merged_tables.specs.merged_rows.Belonging.{semantics_by, method_semantics_in, method_semantics_by};

use il_base::cli_format::CodedIndex;
use il_base::world_model::{AsmRec, MethodSemanticsRow};
use il_base::{NoMemory, Seq};
use merge_plan::inputs;
use merge_plan::kept_tables::coded::coded;
use merge_plan::kept_tables::tables::KeptTables;
use std::alloc::Global;
use type_tables::member_search::counted::row_of;

/// Puts a row at the end, where what it belongs to is kept.
fn push_semantics(
    tables: &KeptTables,
    asm: u32,
    row: &MethodSemanticsRow,
    rows: &mut Vec<MethodSemanticsRow>,
) -> Result<(), NoMemory>
    ensures { OnOk result (rows.new.items ≡ rows.old.items ++ semantics_by tables.now asm row.now) }
{
    let Some(method) = tables.token(asm, row.method) else {
        return Ok(());
    };
    let Some(association) = tables.token(asm, row.association) else {
        return Ok(());
    };
    rows.push(MethodSemanticsRow {
        semantics: row.semantics,
        method,
        association,
    })?;
    Ok(())
}

/// Puts the rows of an assembly at the end.
fn push_method_semantics(
    tables: &KeptTables,
    asm: u32,
    rec: &AsmRec,
    rows: &mut Vec<MethodSemanticsRow>,
) -> Result<(), NoMemory>
    ensures { OnOk result (rows.new.items ≡ rows.old.items ++ method_semantics_in tables.now asm rec.now) }
{
    for row in rec.method_semantics.as_slice() {
        push_semantics(tables, asm, row, rows)?;
    }
    Ok(())
}

/// In the order of their keys, those of one key in the order in which they were.
fn in_order(mut rows: Vec<MethodSemanticsRow>) -> Result<Vec<MethodSemanticsRow>, NoMemory>
    ensures { IfOk result (λ sorted. sorted.items ≡ by_key (λ (row : MethodSemanticsRow). coded_of HasSemantics row.association) rows.items) }
{
    rows.sort_by_key(|row| u64::from(coded(CodedIndex::HasSemantics, row.association)))?;
    Ok(rows)
}

/// The rows of the output.
pub fn method_semantics(
    alloc: Global,
    recs: &[AsmRec],
    tables: &KeptTables,
) -> Result<Seq<MethodSemanticsRow>, NoMemory>
    ensures { IfOk result (λ rows. rows ≡ method_semantics_by tables.now recs.now) }
{
    let mut rows = Vec::new(alloc);
    for (a, rec) in inputs(recs).iter().enumerate() {
        let asm = row_of(a)?;
        push_method_semantics(tables, asm, rec, &mut rows)?;
    }
    let sorted = in_order(rows)?;
    Ok(Seq::from_vec(sorted))
}
