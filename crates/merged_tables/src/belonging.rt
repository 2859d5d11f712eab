//! The rows that go with kept rows.

ghost use Rattle.std.specs.Prelude.{IfOk};
ghost use Rattle.merged_tables.specs.Parts.{AreOutputParts, output_in};
ghost use Rattle.merged_tables.specs.Rows.{AreBelongingRows};

use crate::merged_rows::class_layouts::class_layouts;
use crate::merged_rows::constants::constants;
use crate::merged_rows::laws::rows_tell;
use crate::merged_rows::method_semantics::method_semantics;
use crate::merged_rows::nested_classes::nested_classes;
use crate::parts::OutputParts;
use il_base::world_model::{ClassLayoutRow, ConstantRow, MethodSemanticsRow, NestedClassRow};
use il_base::{NoMemory, Seq};
use std::alloc::Global;

/// Constants, layouts, nesting and accessors.
#[derive(Drop)]
pub struct BelongingRows {
    pub constants: Seq<ConstantRow>,
    pub layouts: Seq<ClassLayoutRow>,
    pub nested: Seq<NestedClassRow>,
    pub semantics: Seq<MethodSemanticsRow>,
}

/// The rows of the output.
pub(crate) fn belonging_rows(
    alloc: Global,
    parts: &OutputParts<'_>,
) -> Result<BelongingRows, NoMemory>
    requires { AreOutputParts parts.now }
    ensures { IfOk result (AreBelongingRows (output_in parts.now)) }
{
    rows_tell();
    let recs = parts.recs;
    let tables = parts.tables;
    let constants = constants(alloc, recs, tables)?;
    let layouts = class_layouts(alloc, recs, tables)?;
    let nested = nested_classes(alloc, recs, tables)?;
    let semantics = method_semantics(alloc, recs, tables)?;
    Ok(BelongingRows {
        constants,
        layouts,
        nested,
        semantics,
    })
}
