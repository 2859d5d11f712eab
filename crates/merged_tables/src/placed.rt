//! Methods and the bytes of fields, with their addresses.

ghost use Rattle.std.specs.Prelude.{IfOk};
ghost use Rattle.merged_tables.specs.Parts.{AreOutputParts, output_in};
ghost use Rattle.merged_tables.specs.Rows.{ArePlacedRows};

use crate::merged_field_rvas::field_rvas::field_rvas;
use crate::merged_field_rvas::laws::field_rvas_tell;
use crate::merged_members::laws::members_tell;
use crate::merged_members::methods::methods;
use crate::parts::OutputParts;
use il_base::world_model::{FieldRvaRow, MethodDefRow};
use il_base::{NoMemory, Seq};
use merge_plan::method_places::laws::modulo_tells;
use merge_plan::method_places::{Placed, placed_methods};
use std::alloc::Global;

/// The rows of kept methods, and where the bytes of kept fields are: after the bodies.
#[derive(Drop)]
pub struct PlacedRows {
    pub methods: Seq<MethodDefRow>,
    pub field_rvas: Seq<FieldRvaRow>,
}

/// The rows of the output.
pub(crate) fn placed_rows(alloc: Global, parts: &OutputParts<'_>) -> Result<PlacedRows, NoMemory>
    requires { AreOutputParts parts.now }
    ensures { IfOk result (ArePlacedRows (output_in parts.now)) }
{
    members_tell();
    modulo_tells();
    field_rvas_tell();
    let tables = parts.tables;
    let kept_methods = tables.items.methods.rows();
    let rows = methods(
        alloc,
        parts.recs,
        parts.tokens,
        &tables.items.params,
        kept_methods,
    )?;
    let placed = placed_methods(alloc, rows)?;
    let field_rvas = field_rvas(alloc, parts.recs, tables, placed.size)?;
    let Placed { rows: methods, .. } = placed;
    Ok(PlacedRows {
        methods,
        field_rvas,
    })
}
