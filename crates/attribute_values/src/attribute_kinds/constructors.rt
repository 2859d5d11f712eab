//! The kinds of a constructor's parameters.

ghost use Rattle.std.specs.Prelude.{◌≡◌, slice_get, IfOk};
ghost use Rattle.std.specs.Option.{option_and_then, option_copied};
ghost use Rattle.il_base.specs.declared.table.TheConstants.{METHOD_DEF, MEMBER_REF};
ghost use Rattle.il_base.specs.world_model.Tokens.{index_in};
ghost use Rattle.rules.specs.mark_rules.Attributes.{ref_sig, constructor_sig, first_kinds, kinds_of_known};
ghost use Rattle.attribute_values.specs.attribute_kinds.Sites.{recs_in, place_in, rec_in, IsSite};

use crate::attribute_kinds::kinds::{kinds_of_all, kinds_of_known};
use crate::attribute_kinds::site::Site;
use attr_blobs::ParamKind;
use il_base::world_model::{AsmRec, Known, MemberRefRow, MemberSig, MethodDefRow, index_in};
use il_base::{NoMemory, Seq, table};
use std::alloc::Global;

/// The method that a MethodDef token names.
fn method_def(rec: &AsmRec, token: u32) -> Option<&MethodDefRow>
    ensures { option_copied result ≡ option_and_then (slice_get rec.now.method_def) (index_in METHOD_DEF token) }
{
    match index_in(table::METHOD_DEF, token) {
        None => None,
        Some(k) => rec.method_def.get(k as usize),
    }
}

/// The reference that a MemberRef token names.
fn member_ref(rec: &AsmRec, token: u32) -> Option<&MemberRefRow>
    ensures { option_copied result ≡ option_and_then (slice_get rec.now.member_ref) (index_in MEMBER_REF token) }
{
    match index_in(table::MEMBER_REF, token) {
        None => None,
        Some(k) => rec.member_ref.get(k as usize),
    }
}

/// The kinds of the parameters of a method that a reference names; None where one has none, or it names no method.
fn kinds_of_ref(
    alloc: Global,
    site: &Site<'_>,
    row: &MemberRefRow,
) -> Result<Option<Seq<ParamKind>>, NoMemory>
    requires { IsSite site.now }
    ensures { IfOk result (λ ks. ks ≡ kinds_of_known (recs_in site.now) (place_in site.now) (rec_in site.now) (ref_sig row.now)) }
{
    match &row.signature {
        Known::Bad(_) => Ok(None),
        Known::Good(MemberSig::Field(_)) => Ok(None),
        Known::Good(MemberSig::Method(sig)) => kinds_of_all(alloc, site, sig.params.as_slice()),
    }
}

/// The kinds of a constructor's parameters, by its MethodDef or MemberRef token; None where one has none.
pub fn constructor_kinds(
    alloc: Global,
    site: &Site<'_>,
    token: u32,
) -> Result<Option<Seq<ParamKind>>, NoMemory>
    requires { IsSite site.now }
    ensures { IfOk result (λ ks. ks ≡ first_kinds (recs_in site.now) (place_in site.now) (rec_in site.now) (constructor_sig (rec_in site.now) token)) }
{
    match method_def(site.asm.scope.rec, token) {
        Some(m) => kinds_of_known(alloc, site, &m.signature),
        None => match member_ref(site.asm.scope.rec, token) {
            Some(row) => kinds_of_ref(alloc, site, row),
            None => Ok(None),
        },
    }
}
