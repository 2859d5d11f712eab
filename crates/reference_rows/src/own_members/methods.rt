//! Methods.

ghost use Rattle.std.specs.Prelude.{◌≡◌, length, IfOk};
ghost use Rattle.rules.specs.link_rules.Cycles.{listed};
ghost use Rattle.rules.specs.merge_rules.Refs.{method_at, own_method_sig, method_name};
ghost use Rattle.merge_plan.specs.moved_parts.Moves.{method_sig_by};
ghost use Rattle.reference_rows.specs.own_members.Rows.{AreNumbersOfEach, sigs_by};

use il_base::world_model::{AsmRec, Known};
use il_base::{MethodId, MethodSig, NoMemory};
use merge_plan::moved_parts::{NewTokens, moved_sig, moved_sigs};
use rules::link_rules::RowAt;
use std::alloc::Global;
use token_keys::signature_rows::laws::signatures_tell;
use type_tables::member_search::linked::assembly_at;
use type_tables::methods::{method_home, method_row_at};

/// The row of a method.
pub fn method_at(recs: &[AsmRec], id: MethodId) -> Result<Option<RowAt>, NoMemory>
    ensures { IfOk result (λ at. at ≡ method_at recs.now id) }
{
    let at = method_home(recs, id)?;
    Ok(at)
}

/// The name of the method in a row; of a row that isn't there it is empty.
pub fn method_name(recs: &[AsmRec], at: RowAt) -> &[u8]
    ensures { result.now ≡ method_name recs.now at }
{
    match method_row_at(recs, at) {
        None => &[],
        Some(row) => row.name.as_slice(),
    }
}

/// A method's signature with new tokens in place of its own, or with numbers.
pub fn signature_with(
    alloc: Global,
    tokens: &NewTokens,
    sig: &MethodSig,
) -> Result<MethodSig, NoMemory>
    ensures { IfOk result (λ s. s ≡ method_sig_by tokens.now sig.now) }
{
    let ret = moved_sig(alloc, tokens, &sig.ret)?;
    let params = moved_sigs(alloc, tokens, sig.params.as_slice())?;
    Ok(MethodSig {
        this: sig.this,
        generic: sig.generic,
        ret,
        params,
    })
}

/// The signature of the method in a row of an assembly.
fn sig_in(
    alloc: Global,
    rec: &AsmRec,
    numbers: &NewTokens,
    row: u32,
) -> Result<Option<MethodSig>, NoMemory>
    ensures { IfOk result (λ s. listed s ≡ sigs_by numbers.now rec.now row) }
{
    match rec.method_def.get(row as usize) {
        None => Ok(None),
        Some(method) => match &method.signature {
            Known::Bad(_) => Ok(None),
            Known::Good(sig) => {
                let sig = signature_with(alloc, numbers, sig)?;
                Ok(Some(sig))
            }
        },
    }
}

/// The signature of the method in a row over the types of the world; None where it has no reading. `numbers` are the numbers of the
/// types that the tokens of each assembly name.
pub fn own_method_sig(
    alloc: Global,
    recs: &[AsmRec],
    numbers: &[NewTokens],
    at: RowAt,
) -> Result<Option<MethodSig>, NoMemory>
    requires long { length numbers.now ≡ length recs.now }
    requires each { AreNumbersOfEach recs.now numbers.now }
    ensures { IfOk result (λ s. listed s ≡ own_method_sig recs.now at) }
{
    signatures_tell();
    match assembly_at(recs, at.asm) {
        None => Ok(None),
        Some(rec) => {
            let sig = sig_in(alloc, rec, &numbers[at.asm as usize], at.row)?;
            Ok(sig)
        }
    }
}
