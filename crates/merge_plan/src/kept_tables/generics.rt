//! The generic parameters of kept types and methods, by their owners and numbers (II.22.20).

ghost use Rattle.std.specs.Prelude.{◌≡◌, ◌++◌, map, IfOk, OnOk};
ghost use Rattle.rules.specs.merge_rules.Rows.{param_key};
ghost use Rattle.merge_plan.specs.kept_tables.Order.{sorted_of};
ghost use Rattle.merge_plan.specs.kept_tables.Tables.{param_by, params_by, params_in};

use crate::kept_tables::coded::coded;
use crate::kept_tables::order::{SortedRow, in_order};
use crate::kept_tables::places::owner_in;
use crate::{Numbers, inputs};
use il_base::NoMemory;
use il_base::cli_format::CodedIndex;
use il_base::world_model::{AsmRec, GenericParamRow};
use rules::link_rules::RowAt;
use std::alloc::Global;
use type_tables::member_search::counted::row_of;

/// The sort key of a GenericParam row: its owner, then its number, which has 16 bits.
fn param_key(number: u16, owner: u32) -> u64
    ensures { result ≡ param_key number owner }
{
    u64::from(coded(CodedIndex::TypeOrMethodDef, owner)) * 0x1_0000 + u64::from(number)
}

/// Adds a row, where its owner is kept.
fn push_param(
    types: &Numbers,
    methods: &Numbers,
    at: RowAt,
    row: &GenericParamRow,
    rows: &mut Vec<SortedRow>,
) -> Result<(), NoMemory>
    ensures { OnOk result (map sorted_of rows.new.items ≡ map sorted_of rows.old.items ++ param_by types.now methods.now at.asm at.row row.now) }
{
    if let Some(owner) = owner_in(types, methods, at.asm, row.owner) {
        let key = param_key(row.number, owner);
        rows.push(SortedRow { at, owner, key })?;
    }
    Ok(())
}

/// Adds the rows of an assembly that are kept.
fn push_params(
    types: &Numbers,
    methods: &Numbers,
    asm: u32,
    rec: &AsmRec,
    rows: &mut Vec<SortedRow>,
) -> Result<(), NoMemory>
    ensures { OnOk result (map sorted_of rows.new.items ≡ map sorted_of rows.old.items ++ params_in types.now methods.now asm rec.now) }
{
    for (k, row) in rec.generic_param.as_slice().iter().enumerate() {
        let at = RowAt {
            asm,
            row: row_of(k)?,
        };
        push_param(types, methods, at, row, rows)?;
    }
    Ok(())
}

/// The rows of kept types and methods.
pub(crate) fn kept_generic_params(
    alloc: Global,
    recs: &[AsmRec],
    types: &Numbers,
    methods: &Numbers,
) -> Result<Vec<SortedRow>, NoMemory>
    ensures { IfOk result (λ rows. map sorted_of rows.items ≡ params_by types.now methods.now recs.now) }
{
    let mut rows = Vec::new(alloc);
    for (a, rec) in inputs(recs).iter().enumerate() {
        let asm = row_of(a)?;
        push_params(types, methods, asm, rec, &mut rows)?;
    }
    let sorted = in_order(rows)?;
    Ok(sorted)
}
