//! Fields.

ghost use Rattle.std.specs.Prelude.{◌≡◌, length, IfOk};
ghost use Rattle.rules.specs.link_rules.Cycles.{listed};
ghost use Rattle.rules.specs.merge_rules.Refs.{field_at, own_field_sig, field_name};
ghost use Rattle.reference_rows.specs.own_members.Rows.{AreNumbersOfEach, field_sigs_by};

use il_base::world_model::{AsmRec, Known};
use il_base::{FieldId, NoMemory, Sig};
use merge_plan::moved_parts::{NewTokens, moved_sig};
use rules::link_rules::RowAt;
use std::alloc::Global;
use token_keys::signature_rows::laws::signatures_tell;
use type_tables::member_search::linked::assembly_at;

/// The row of a field.
#[tactic(auto, unfolding(rules::specs::link_rules::Members::home_from))]
pub fn field_at(recs: &[AsmRec], id: FieldId) -> Result<Option<RowAt>, NoMemory>
    ensures { IfOk result (λ at. at ≡ field_at recs.now id) }
{
    let mut left = id.0;
    for (a, rec) in recs.iter().enumerate() {
        let count = rec.field.len();
        if (left as usize) < count {
            let Ok(asm) = u32::try_from(a) else {
                return Err(NoMemory);
            };
            return Ok(Some(RowAt { asm, row: left }));
        }
        left -= count as u32;
    }
    Ok(None)
}

/// The name of the field in a row; of a row that isn't there it is empty.
pub fn field_name(recs: &[AsmRec], at: RowAt) -> &[u8]
    ensures { result.now ≡ field_name recs.now at }
{
    match assembly_at(recs, at.asm) {
        None => &[],
        Some(rec) => match rec.field.get(at.row as usize) {
            None => &[],
            Some(row) => row.name.as_slice(),
        },
    }
}

/// The signature of the field in a row of an assembly.
fn sig_in(
    alloc: Global,
    rec: &AsmRec,
    numbers: &NewTokens,
    row: u32,
) -> Result<Option<Sig>, NoMemory>
    ensures { IfOk result (λ s. listed s ≡ field_sigs_by numbers.now rec.now row) }
{
    match rec.field.get(row as usize) {
        None => Ok(None),
        Some(field) => match &field.signature {
            Known::Bad(_) => Ok(None),
            Known::Good(sig) => {
                let sig = moved_sig(alloc, numbers, sig)?;
                Ok(Some(sig))
            }
        },
    }
}

/// The signature of the field in a row over the types of the world; None where it has no reading. `numbers` are the numbers of the types
/// that the tokens of each assembly name.
pub fn own_field_sig(
    alloc: Global,
    recs: &[AsmRec],
    numbers: &[NewTokens],
    at: RowAt,
) -> Result<Option<Sig>, NoMemory>
    requires long { length numbers.now ≡ length recs.now }
    requires each { AreNumbersOfEach recs.now numbers.now }
    ensures { IfOk result (λ s. listed s ≡ own_field_sig recs.now at) }
{
    signatures_tell();
    match assembly_at(recs, at.asm) {
        None => Ok(None),
        Some(rec) => {
            let sig = sig_in(alloc, rec, &numbers[at.asm as usize], at.row)?;
            Ok(sig)
        }
    }
}
