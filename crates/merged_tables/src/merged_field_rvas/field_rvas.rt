//! The FieldRVA rows of kept fields (II.22.18).

ghost use Rattle.std.specs.Prelude.{◌≡◌, ◌++◌, IfOk, OnOk};
ghost use Rattle.rules.specs.merge_rules.Sorted.{by_key};
ghost use Rattle.il_base.specs.declared.world_model.extras.FieldRvaRow.{FieldRvaRow};
ghost use Rattle.merged_tables.specs.merged_rows.Belonging.{of_inputs};
ghost use Rattle.merged_tables.specs.merged_field_rvas.FieldRvas.{field_rva_by, field_rvas_in, field_rvas_by};

use crate::merged_field_rvas::placing::placed;
use il_base::world_model::{AsmRec, FieldRvaRow, Known};
use il_base::{NoMemory, Seq, Text};
use merge_plan::inputs;
use merge_plan::kept_tables::tables::KeptTables;
use std::alloc::Global;
use type_tables::member_search::counted::row_of;

fn copy_bytes(alloc: Global, bytes: &Known<Text>) -> Result<Known<Text>, NoMemory>
    ensures { IfOk result (λ made. made ≡ bytes.now) }
{
    match bytes {
        Known::Bad(why) => Ok(Known::Bad(*why)),
        Known::Good(bytes) => {
            let bytes = Seq::from_slice(alloc, bytes.as_slice())?;
            Ok(Known::Good(bytes))
        }
    }
}

/// Puts a row at the end, where its field is kept.
fn push_field_rva(
    alloc: Global,
    tables: &KeptTables,
    asm: u32,
    row: &FieldRvaRow,
    rows: &mut Vec<FieldRvaRow>,
) -> Result<(), NoMemory>
    ensures { OnOk result (rows.new.items ≡ rows.old.items ++ field_rva_by tables.now asm row.now) }
{
    let Some(field) = tables.token(asm, row.field) else {
        return Ok(());
    };
    let bytes = copy_bytes(alloc, &row.bytes)?;
    rows.push(FieldRvaRow {
        rva: row.rva,
        field,
        bytes,
    })?;
    Ok(())
}

/// Puts the rows of an assembly at the end.
fn push_field_rvas(
    alloc: Global,
    tables: &KeptTables,
    asm: u32,
    rec: &AsmRec,
    rows: &mut Vec<FieldRvaRow>,
) -> Result<(), NoMemory>
    ensures { OnOk result (rows.new.items ≡ rows.old.items ++ field_rvas_in tables.now asm rec.now) }
{
    for row in rec.field_rva.as_slice() {
        push_field_rva(alloc, tables, asm, row, rows)?;
    }
    Ok(())
}

/// In the order of their fields, those of one field in the order in which they were.
fn in_order(mut rows: Vec<FieldRvaRow>) -> Result<Vec<FieldRvaRow>, NoMemory>
    ensures { IfOk result (λ sorted. sorted.items ≡ by_key (λ (row : FieldRvaRow). row.field) rows.items) }
{
    rows.sort_by_key(|row| row.field)?;
    Ok(rows)
}

/// The rows of all inputs, in the order of their fields.
fn in_fields(
    alloc: Global,
    recs: &[AsmRec],
    tables: &KeptTables,
) -> Result<Vec<FieldRvaRow>, NoMemory>
    ensures { IfOk result (λ rows. rows.items ≡ by_key (λ (row : FieldRvaRow). row.field) (of_inputs (field_rvas_in tables.now) recs.now)) }
{
    let mut rows = Vec::new(alloc);
    for (a, rec) in inputs(recs).iter().enumerate() {
        let asm = row_of(a)?;
        push_field_rvas(alloc, tables, asm, rec, &mut rows)?;
    }
    let sorted = in_order(rows)?;
    Ok(sorted)
}

/// The rows of the output. `before` is the length, in bytes, of the method bodies, which are before the bytes of fields.
pub fn field_rvas(
    alloc: Global,
    recs: &[AsmRec],
    tables: &KeptTables,
    before: u64,
) -> Result<Seq<FieldRvaRow>, NoMemory>
    ensures { IfOk result (λ rows. rows ≡ field_rvas_by tables.now recs.now before) }
{
    let rows = in_fields(alloc, recs, tables)?;
    let done = placed(alloc, before, rows)?;
    Ok(done)
}
