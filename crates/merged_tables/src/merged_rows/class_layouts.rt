//! The ClassLayout rows of kept parents (II.22.8).

ghost use Rattle.std.specs.Prelude.{◌≡◌, ◌++◌, IfOk, OnOk};
ghost use Rattle.rules.specs.merge_rules.Sorted.{by_key};
ghost use Rattle.il_base.specs.declared.world_model.types.ClassLayoutRow.{ClassLayoutRow};
ghost use Rattle.merged_tables.specs.merged_rows.Belonging.{layout_by, class_layouts_in, class_layouts_by};

use il_base::world_model::{AsmRec, ClassLayoutRow};
use il_base::{NoMemory, Seq};
use merge_plan::inputs;
use merge_plan::kept_tables::tables::KeptTables;
use std::alloc::Global;
use type_tables::member_search::counted::row_of;

/// Puts a row at the end, where what it belongs to is kept.
fn push_layout(
    tables: &KeptTables,
    asm: u32,
    row: &ClassLayoutRow,
    rows: &mut Vec<ClassLayoutRow>,
) -> Result<(), NoMemory>
    ensures { OnOk result (rows.new.items ≡ rows.old.items ++ layout_by tables.now asm row.now) }
{
    let Some(parent) = tables.token(asm, row.parent) else {
        return Ok(());
    };
    rows.push(ClassLayoutRow {
        packing_size: row.packing_size,
        class_size: row.class_size,
        parent,
    })?;
    Ok(())
}

/// Puts the rows of an assembly at the end.
fn push_class_layouts(
    tables: &KeptTables,
    asm: u32,
    rec: &AsmRec,
    rows: &mut Vec<ClassLayoutRow>,
) -> Result<(), NoMemory>
    ensures { OnOk result (rows.new.items ≡ rows.old.items ++ class_layouts_in tables.now asm rec.now) }
{
    for row in rec.class_layout.as_slice() {
        push_layout(tables, asm, row, rows)?;
    }
    Ok(())
}

/// In the order of their keys, those of one key in the order in which they were.
fn in_order(mut rows: Vec<ClassLayoutRow>) -> Result<Vec<ClassLayoutRow>, NoMemory>
    ensures { IfOk result (λ sorted. sorted.items ≡ by_key (λ (row : ClassLayoutRow). row.parent) rows.items) }
{
    rows.sort_by_key(|row| row.parent)?;
    Ok(rows)
}

/// The rows of the output.
pub fn class_layouts(
    alloc: Global,
    recs: &[AsmRec],
    tables: &KeptTables,
) -> Result<Seq<ClassLayoutRow>, NoMemory>
    ensures { IfOk result (λ rows. rows ≡ class_layouts_by tables.now recs.now) }
{
    let mut rows = Vec::new(alloc);
    for (a, rec) in inputs(recs).iter().enumerate() {
        let asm = row_of(a)?;
        push_class_layouts(tables, asm, rec, &mut rows)?;
    }
    let sorted = in_order(rows)?;
    Ok(Seq::from_vec(sorted))
}
