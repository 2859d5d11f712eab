//! The NestedClass rows of kept parents (II.22.32).

ghost use Rattle.std.specs.Prelude.{◌≡◌, ◌++◌, IfOk, OnOk};
ghost use Rattle.rules.specs.merge_rules.Sorted.{by_key};
ghost use Rattle.il_base.specs.declared.world_model.types.NestedClassRow.{NestedClassRow};
ghost use Rattle.merged_tables.specs.merged_rows.Belonging.{nested_by, nested_classes_in, nested_classes_by};

use il_base::world_model::{AsmRec, NestedClassRow};
use il_base::{NoMemory, Seq};
use merge_plan::inputs;
use merge_plan::kept_tables::tables::KeptTables;
use std::alloc::Global;
use type_tables::member_search::counted::row_of;

/// Puts a row at the end, where what it belongs to is kept.
fn push_nested(
    tables: &KeptTables,
    asm: u32,
    row: &NestedClassRow,
    rows: &mut Vec<NestedClassRow>,
) -> Result<(), NoMemory>
    ensures { OnOk result (rows.new.items ≡ rows.old.items ++ nested_by tables.now asm row.now) }
{
    let Some(nested_class) = tables.token(asm, row.nested_class) else {
        return Ok(());
    };
    let Some(enclosing_class) = tables.token(asm, row.enclosing_class) else {
        return Ok(());
    };
    rows.push(NestedClassRow {
        nested_class,
        enclosing_class,
    })?;
    Ok(())
}

/// Puts the rows of an assembly at the end.
fn push_nested_classes(
    tables: &KeptTables,
    asm: u32,
    rec: &AsmRec,
    rows: &mut Vec<NestedClassRow>,
) -> Result<(), NoMemory>
    ensures { OnOk result (rows.new.items ≡ rows.old.items ++ nested_classes_in tables.now asm rec.now) }
{
    for row in rec.nested_class.as_slice() {
        push_nested(tables, asm, row, rows)?;
    }
    Ok(())
}

/// In the order of their keys, those of one key in the order in which they were.
fn in_order(mut rows: Vec<NestedClassRow>) -> Result<Vec<NestedClassRow>, NoMemory>
    ensures { IfOk result (λ sorted. sorted.items ≡ by_key (λ (row : NestedClassRow). row.nested_class) rows.items) }
{
    rows.sort_by_key(|row| row.nested_class)?;
    Ok(rows)
}

/// The rows of the output.
pub fn nested_classes(
    alloc: Global,
    recs: &[AsmRec],
    tables: &KeptTables,
) -> Result<Seq<NestedClassRow>, NoMemory>
    ensures { IfOk result (λ rows. rows ≡ nested_classes_by tables.now recs.now) }
{
    let mut rows = Vec::new(alloc);
    for (a, rec) in inputs(recs).iter().enumerate() {
        let asm = row_of(a)?;
        push_nested_classes(tables, asm, rec, &mut rows)?;
    }
    let sorted = in_order(rows)?;
    Ok(Seq::from_vec(sorted))
}
