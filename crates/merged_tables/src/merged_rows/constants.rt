//! The Constant rows of kept parents (II.22.9).

ghost use Rattle.std.specs.Prelude.{◌≡◌, ◌++◌, IfOk, OnOk};
ghost use Rattle.il_base.specs.declared.cli_format.column.CodedIndex.TheVariants.{HasConstant};
ghost use Rattle.il_base.specs.cli_format.Tokens.{coded_of};
ghost use Rattle.rules.specs.merge_rules.Sorted.{by_key};
ghost use Rattle.il_base.specs.declared.world_model.extras.ConstantRow.{ConstantRow};
ghost use Rattle.merged_tables.specs.merged_rows.Belonging.{constant_by, constants_in, constants_by};

use il_base::cli_format::CodedIndex;
use il_base::world_model::{AsmRec, ConstantRow};
use il_base::{NoMemory, Seq};
use merge_plan::inputs;
use merge_plan::kept_tables::coded::coded;
use merge_plan::kept_tables::tables::KeptTables;
use std::alloc::Global;
use type_tables::member_search::counted::row_of;

/// Puts a row at the end, where what it belongs to is kept.
fn push_constant(
    alloc: Global,
    tables: &KeptTables,
    asm: u32,
    row: &ConstantRow,
    rows: &mut Vec<ConstantRow>,
) -> Result<(), NoMemory>
    ensures { OnOk result (rows.new.items ≡ rows.old.items ++ constant_by tables.now asm row.now) }
{
    let Some(parent) = tables.token(asm, row.parent) else {
        return Ok(());
    };
    let value = Seq::from_slice(alloc, row.value.as_slice())?;
    rows.push(ConstantRow {
        kind: row.kind,
        parent,
        value,
    })?;
    Ok(())
}

/// Puts the rows of an assembly at the end.
fn push_constants(
    alloc: Global,
    tables: &KeptTables,
    asm: u32,
    rec: &AsmRec,
    rows: &mut Vec<ConstantRow>,
) -> Result<(), NoMemory>
    ensures { OnOk result (rows.new.items ≡ rows.old.items ++ constants_in tables.now asm rec.now) }
{
    for row in rec.constant.as_slice() {
        push_constant(alloc, tables, asm, row, rows)?;
    }
    Ok(())
}

/// In the order of their keys, those of one key in the order in which they were.
fn in_order(mut rows: Vec<ConstantRow>) -> Result<Vec<ConstantRow>, NoMemory>
    ensures { IfOk result (λ sorted. sorted.items ≡ by_key (λ (row : ConstantRow). coded_of HasConstant row.parent) rows.items) }
{
    rows.sort_by_key(|row| u64::from(coded(CodedIndex::HasConstant, row.parent)))?;
    Ok(rows)
}

/// The rows of the output.
pub fn constants(
    alloc: Global,
    recs: &[AsmRec],
    tables: &KeptTables,
) -> Result<Seq<ConstantRow>, NoMemory>
    ensures { IfOk result (λ rows. rows ≡ constants_by tables.now recs.now) }
{
    let mut rows = Vec::new(alloc);
    for (a, rec) in inputs(recs).iter().enumerate() {
        let asm = row_of(a)?;
        push_constants(alloc, tables, asm, rec, &mut rows)?;
    }
    let sorted = in_order(rows)?;
    Ok(Seq::from_vec(sorted))
}
