//! The rows of sorted tables that other rows number.

ghost use Rattle.std.specs.Prelude.{IfOk};
ghost use Rattle.merged_tables.specs.Parts.{AreOutputParts, output_in};
ghost use Rattle.merged_tables.specs.Rows.{AreOwnedRows};

use crate::merged_sorted::constraints::constraints;
use crate::merged_sorted::generic_params::generic_params;
use crate::merged_sorted::interfaces::interface_impls;
use crate::merged_sorted::laws::sorted_tell;
use crate::parts::OutputParts;
use il_base::world_model::{GenericParamConstraintRow, GenericParamRow, InterfaceImplRow};
use il_base::{NoMemory, Seq};
use std::alloc::Global;

/// The interfaces of kept types, the generic parameters of kept types and methods, and their constraints.
#[derive(Drop)]
pub struct OwnedRows {
    pub interfaces: Seq<InterfaceImplRow>,
    pub generic_params: Seq<GenericParamRow>,
    pub constraints: Seq<GenericParamConstraintRow>,
}

/// The rows of the output.
pub(crate) fn owned_rows(alloc: Global, parts: &OutputParts<'_>) -> Result<OwnedRows, NoMemory>
    requires { AreOutputParts parts.now }
    ensures { IfOk result (AreOwnedRows (output_in parts.now)) }
{
    sorted_tell();
    let recs = parts.recs;
    let tables = parts.tables;
    let kept_impls = tables.interfaces.rows.as_slice();
    let interfaces = interface_impls(alloc, recs, parts.tokens, kept_impls)?;
    let kept_params = tables.generic_params.rows.as_slice();
    let generic_params = generic_params(alloc, recs, kept_params)?;
    let kept_constraints = tables.constraints.rows.as_slice();
    let constraints = constraints(alloc, recs, parts.tokens, kept_constraints)?;
    Ok(OwnedRows {
        interfaces,
        generic_params,
        constraints,
    })
}
