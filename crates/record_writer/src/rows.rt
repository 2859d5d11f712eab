//! The limit on rows: a table that has too many, or a run without a spelling (II.24.2.6).

ghost use Rattle.std.specs.Prelude.{◌≡◌, nat_lt, find};
ghost use Rattle.il_base.specs.cli_format.Metadata.{most_rows};
ghost use Rattle.rules.specs.file_layout.Runs as runs;
ghost use Rattle.rules.specs.record_layout.Limits as limits;
ghost use Rattle.record_writer.specs.Written.{rows_over};

use il_base::world_model::{AsmRec, EventMapRow, MethodDefRow, PropertyMapRow, TypeDefRow};

/// The most rows that a table may have.
const MOST_ROWS: usize = 1_048_576;

/// The number of rows at which a run has no spelling.
const UNSPELLED_ROWS: usize = 65_535;

/// The first of some sizes that is above the limit.
fn first_long(sizes: &[usize]) -> Option<usize>
    ensures { result ≡ find (nat_lt most_rows) sizes.now }
{
    for size in sizes {
        if *size > MOST_ROWS {
            return Some(*size);
        }
    }
    None
}

/// The number of rows of the first table that has too many.
#[rattlefmt::skip]
#[tactic(auto, unfolding(il_base::specs::world_model::Records::table_sizes, rules::specs::record_layout::Limits::long_table))]
fn long_table(rec: &AsmRec) -> Option<usize>
    ensures { result ≡ limits.long_table rec.now }
{
    let sizes = [
        rec.module.len(), rec.type_ref.len(), rec.type_def.len(), 0, rec.field.len(), 0, rec.method_def.len(), 0,
        rec.param.len(), rec.interface_impl.len(), rec.member_ref.len(), rec.constant.len(), rec.custom_attribute.len(),
        rec.field_marshal.len(), rec.decl_security.len(), rec.class_layout.len(), rec.field_layout.len(),
        rec.stand_alone_sig.len(), rec.event_map.len(), 0, rec.event.len(), rec.property_map.len(), 0,
        rec.property.len(), rec.method_semantics.len(), rec.method_impl.len(), rec.module_ref.len(), rec.type_spec.len(),
        rec.impl_map.len(), rec.field_rva.len(), 0, 0, rec.assembly.len(), rec.assembly_processor.len(),
        rec.assembly_os.len(), rec.assembly_ref.len(), rec.assembly_ref_processor.len(), rec.assembly_ref_os.len(),
        rec.file.len(), rec.exported_type.len(), rec.manifest_resource.len(), rec.nested_class.len(),
        rec.generic_param.len(), rec.method_spec.len(), rec.generic_param_constraint.len(),
    ];
    first_long(&sizes)
}

/// Whether the first row of a run fits the width of an index into a table of so many rows.
fn run_fits(count: usize, first: u32) -> bool
    ensures { result ≡ runs.run_fits count first }
{
    let end: u64 = if count < 0x1_0000 {
        0x1_0000
    } else {
        0x1_0000_0000
    };
    u64::from(first) < end
}

/// Whether each type's run of fields has a spelling.
fn field_runs_fit(count: usize, rows: &[TypeDefRow]) -> bool
    ensures { result ≡ runs.runs_fit count (λ row. row.field_list_first) rows.now }
{
    rows.iter().all(|row| run_fits(count, row.field_list_first))
}

/// Whether each type's run of methods has a spelling.
fn method_runs_fit(count: usize, rows: &[TypeDefRow]) -> bool
    ensures { result ≡ runs.runs_fit count (λ row. row.method_list_first) rows.now }
{
    rows.iter()
        .all(|row| run_fits(count, row.method_list_first))
}

/// Whether each method's run of parameters has a spelling.
fn param_runs_fit(count: usize, rows: &[MethodDefRow]) -> bool
    ensures { result ≡ runs.runs_fit count (λ row. row.param_list_first) rows.now }
{
    rows.iter().all(|row| run_fits(count, row.param_list_first))
}

/// Whether each type's run of events has a spelling.
fn event_runs_fit(count: usize, rows: &[EventMapRow]) -> bool
    ensures { result ≡ runs.runs_fit count (λ row. row.event_list_first) rows.now }
{
    rows.iter().all(|row| run_fits(count, row.event_list_first))
}

/// Whether each type's run of properties has a spelling.
fn property_runs_fit(count: usize, rows: &[PropertyMapRow]) -> bool
    ensures { result ≡ runs.runs_fit count (λ row. row.property_list_first) rows.now }
{
    rows.iter()
        .all(|row| run_fits(count, row.property_list_first))
}

/// Whether each run of a record has a spelling.
#[tactic(auto, unfolding(il_base::specs::world_model::Records::table_sizes, rules::specs::file_layout::Runs::runs_have_spelling))]
fn runs_have_spelling(rec: &AsmRec) -> bool
    ensures { result ≡ runs.runs_have_spelling rec.now }
{
    field_runs_fit(rec.field.len(), rec.type_def.as_slice())
        && method_runs_fit(rec.method_def.len(), rec.type_def.as_slice())
        && param_runs_fit(rec.param.len(), rec.method_def.as_slice())
        && event_runs_fit(rec.event.len(), rec.event_map.as_slice())
        && property_runs_fit(rec.property.len(), rec.property_map.as_slice())
}

/// The number of rows of a record that passes the limit on rows; None where it is within the limit.
pub fn rows_over(rec: &AsmRec) -> Option<usize>
    ensures { result ≡ rows_over rec.now }
{
    match long_table(rec) {
        Some(rows) => Some(rows),
        None => {
            if runs_have_spelling(rec) {
                None
            } else {
                Some(UNSPELLED_ROWS)
            }
        }
    }
}
