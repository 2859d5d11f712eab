//! Whether an attribute is copied, by the MemberRef row of its constructor (II.22.25).

ghost use Rattle.std.specs.Prelude.{◌≡◌, slice_get, Some, IfOk};
ghost use Rattle.std.specs.List.{list_all};
ghost use Rattle.std.specs.Option.{option_copied, option_and_then};
ghost use Rattle.il_base.specs.declared.table.TheConstants.{TYPE_SPEC};
ghost use Rattle.il_base.specs.world_model.Tokens.{index_in};
ghost use Rattle.resolver.specs.type_links.Index.{IsIndex};
ghost use Rattle.rules.specs.merge_rules.Keys.{good};
ghost use Rattle.rules.specs.merge_rules.Attributes.{may_have, may_be_parent, may_take, is_copied};
ghost use Rattle.rules.specs.mark_rules.Attributes.{ref_sig};

use crate::copied_attributes::references::{may_have, may_name};
use il_base::world_model::{
    AsmRec, Known, MemberRefRow, MemberSig, TypeSpecRow, index_in, table_of,
};
use il_base::{MethodSig, NoMemory, Sig, table};
use resolver::type_links::TypeIndex;
use std::alloc::Global;

/// The TypeSpec row that a token names.
fn spec_row(rec: &AsmRec, token: u32) -> Option<&TypeSpecRow>
    ensures { option_copied result ≡ option_and_then (slice_get rec.now.type_spec) (index_in TYPE_SPEC token) }
{
    match index_in(table::TYPE_SPEC, token) {
        None => None,
        Some(k) => rec.type_spec.get(k as usize),
    }
}

/// Whether a copied attribute may have the type of this token, which is its constructor's.
fn may_be_parent(
    alloc: Global,
    index: &TypeIndex<'_>,
    a: u32,
    rec: &AsmRec,
    token: u32,
) -> Result<bool, NoMemory>
    requires index { IsIndex index.now }
    requires stands { slice_get index.now.all.now a ≡ Some rec.now }
    ensures { IfOk result (λ b. b ≡ may_be_parent index.now.all.now a rec.now token) }
{
    if table_of(token) != table::TYPE_SPEC {
        let may = may_name(alloc, index, a, rec, token)?;
        return Ok(may);
    }
    match spec_row(rec, token) {
        None => Ok(false),
        Some(row) => match &row.signature {
            Known::Bad(_) => Ok(false),
            Known::Good(sig) => {
                let may = may_have(alloc, index, a, rec, sig)?;
                Ok(may)
            }
        },
    }
}

/// Whether it may have each of these signatures.
fn may_have_all(
    alloc: Global,
    index: &TypeIndex<'_>,
    a: u32,
    rec: &AsmRec,
    sigs: &[Sig],
) -> Result<bool, NoMemory>
    requires index { IsIndex index.now }
    requires stands { slice_get index.now.all.now a ≡ Some rec.now }
    ensures { IfOk result (λ b. b ≡ list_all (may_have index.now.all.now a rec.now) sigs.now) }
{
    for sig in sigs {
        let may = may_have(alloc, index, a, rec, sig)?;
        if !may {
            return Ok(false);
        }
    }
    Ok(true)
}

/// Whether it may have a constructor of this signature.
fn may_take(
    alloc: Global,
    index: &TypeIndex<'_>,
    a: u32,
    rec: &AsmRec,
    sig: &MethodSig,
) -> Result<bool, NoMemory>
    requires index { IsIndex index.now }
    requires stands { slice_get index.now.all.now a ≡ Some rec.now }
    ensures { IfOk result (λ b. b ≡ may_take index.now.all.now a rec.now sig.now) }
{
    let ret = may_have(alloc, index, a, rec, &sig.ret)?;
    if !ret {
        return Ok(false);
    }
    let params = may_have_all(alloc, index, a, rec, sig.params.as_slice())?;
    Ok(params)
}

/// The signature of a member that is a method.
fn method_sig(row: &MemberRefRow) -> Option<&MethodSig>
    ensures { option_copied result ≡ good (ref_sig row.now) }
{
    match &row.signature {
        Known::Good(MemberSig::Method(sig)) => Some(sig),
        Known::Good(MemberSig::Field(_)) => None,
        Known::Bad(_) => None,
    }
}

/// Whether an attribute whose constructor is in no input is copied: the parent and the signature of the constructor have a
/// reading, and name no type of an input and no type of a module.
pub fn is_copied(
    alloc: Global,
    index: &TypeIndex<'_>,
    a: u32,
    rec: &AsmRec,
    row: &MemberRefRow,
) -> Result<bool, NoMemory>
    requires index { IsIndex index.now }
    requires stands { slice_get index.now.all.now a ≡ Some rec.now }
    ensures { IfOk result (λ b. b ≡ is_copied index.now.all.now a rec.now row.now) }
{
    let parent = may_be_parent(alloc, index, a, rec, row.class)?;
    if !parent {
        return Ok(false);
    }
    match method_sig(row) {
        None => Ok(false),
        Some(sig) => {
            let may = may_take(alloc, index, a, rec, sig)?;
            Ok(may)
        }
    }
}
