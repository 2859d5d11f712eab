ghost use Rattle.std.specs.Prelude.{◌≡◌, IfOk};
ghost use Rattle.il_base.specs.world_model.Worlds.{sig_expr};
ghost use Rattle.rules.specs.link_rules.Signatures.{names_at, method_type};
ghost use Rattle.rules.specs.link_rules.Members.{find_method, find_field, method_use, field_use, method_in_parent, field_in_parent, method_ref_use, field_ref_use};
ghost use Rattle.type_tables.specs.member_search.Linked.{IsLinked, IsScope};

use crate::member_links::uses::{field_use, method_use};
use il_base::world_model::{
    BadKind, FieldUse, Known, MemberRefRow, MemberSig, MethodUse, TypeExpr,
};
use il_base::{MethodSig, NoMemory, Sig};
use rules::link_rules::MethodType;
use std::alloc::Global;
use type_tables::member_search::found::find_member;
use type_tables::member_search::linked::{Linked, Scope};
use type_tables::member_search::members::{Among, Wanted};
use type_tables::member_search::method_types::{open_method_type, open_type};

/// The method with this name and signature that a parent has.
#[tactic(auto, using(crate::proofs::lemmas::member_links::Referring::named_method))]
fn method_found(
    alloc: Global,
    linked: &Linked<'_>,
    parent: &TypeExpr,
    name: &[u8],
    wanted: MethodType,
) -> Result<Known<MethodUse>, NoMemory>
    requires { IsLinked linked.now }
    ensures { IfOk result (λ u. u ≡ method_use linked.now.all.now (find_method linked.now.all.now parent.now name.now wanted)) }
{
    let wanted = Wanted::Method(Among::Named, wanted);
    match find_member(alloc, linked, parent, name, &wanted) {
        Ok(found) => method_use(alloc, linked.all, found),
        Err(error) => Err(error),
    }
}

/// The field with this name and type that a parent has.
#[tactic(auto, unfolding(rules::specs::link_rules::Members::find_field, rules::specs::link_rules::Members::field_of_type, type_tables::specs::member_search::Wanted::look_for, type_tables::specs::member_search::Wanted::member_in))]
fn field_found(
    alloc: Global,
    linked: &Linked<'_>,
    parent: &TypeExpr,
    name: &[u8],
    wanted: TypeExpr,
) -> Result<Known<FieldUse>, NoMemory>
    requires { IsLinked linked.now }
    ensures { IfOk result (λ u. u ≡ field_use linked.now.all.now (find_field linked.now.all.now parent.now name.now wanted)) }
{
    let wanted = Wanted::Field(wanted);
    match find_member(alloc, linked, parent, name, &wanted) {
        Ok(found) => field_use(linked.all, found),
        Err(error) => Err(error),
    }
}

/// The method with a reference's name and this signature that its parent has.
fn method_of_parent(
    alloc: Global,
    scope: &Scope<'_>,
    row: &MemberRefRow,
    parent: &TypeExpr,
    sig: &MethodSig,
) -> Result<Known<MethodUse>, NoMemory>
    requires { IsScope scope.now }
    ensures { IfOk result (λ u. u ≡ method_in_parent scope.now.linked.all.now scope.now.asm scope.now.rec.now row.now parent.now (MemberSig.Method sig.now)) }
{
    match open_method_type(alloc, scope, sig) {
        Ok(Known::Good(wanted)) => {
            method_found(alloc, &scope.linked, parent, row.name.as_slice(), wanted)
        }
        Ok(Known::Bad(why)) => Ok(Known::Bad(why)),
        Err(error) => Err(error),
    }
}

/// The field with a reference's name and this type that its parent has.
fn field_of_parent(
    alloc: Global,
    scope: &Scope<'_>,
    row: &MemberRefRow,
    parent: &TypeExpr,
    sig: &Sig,
) -> Result<Known<FieldUse>, NoMemory>
    requires { IsScope scope.now }
    ensures { IfOk result (λ u. u ≡ field_in_parent scope.now.linked.all.now scope.now.asm scope.now.rec.now row.now parent.now (MemberSig.Field sig.now)) }
{
    match open_type(alloc, scope, sig) {
        Ok(Known::Good(wanted)) => {
            field_found(alloc, &scope.linked, parent, row.name.as_slice(), wanted)
        }
        Ok(Known::Bad(why)) => Ok(Known::Bad(why)),
        Err(error) => Err(error),
    }
}

/// The method that a member reference names, or why it names none (II.22.25).
#[tactic(auto, unfolding(rules::specs::link_rules::Members::method_ref_use))]
pub(crate) fn method_ref_use(
    alloc: Global,
    scope: &Scope<'_>,
    row: &MemberRefRow,
) -> Result<Known<MethodUse>, NoMemory>
    requires { IsScope scope.now }
    ensures { IfOk result (λ u. u ≡ method_ref_use scope.now.linked.all.now scope.now.asm scope.now.rec.now row.now) }
{
    match &row.signature {
        Known::Good(MemberSig::Field(_)) => Ok(Known::Bad(BadKind::Unresolved)),
        Known::Good(MemberSig::Method(sig)) => match scope.token_type(row.class) {
            Ok(parent) => method_of_parent(alloc, scope, row, parent, sig),
            Err(why) => Ok(Known::Bad(why)),
        },
        Known::Bad(why) => match scope.token_type(row.class) {
            Ok(_) => Ok(Known::Bad(*why)),
            Err(why) => Ok(Known::Bad(why)),
        },
    }
}

/// The field that a member reference names, or why it names none (II.22.25).
#[tactic(auto, unfolding(rules::specs::link_rules::Members::field_ref_use))]
pub(crate) fn field_ref_use(
    alloc: Global,
    scope: &Scope<'_>,
    row: &MemberRefRow,
) -> Result<Known<FieldUse>, NoMemory>
    requires { IsScope scope.now }
    ensures { IfOk result (λ u. u ≡ field_ref_use scope.now.linked.all.now scope.now.asm scope.now.rec.now row.now) }
{
    match &row.signature {
        Known::Good(MemberSig::Method(_)) => Ok(Known::Bad(BadKind::Unresolved)),
        Known::Good(MemberSig::Field(sig)) => match scope.token_type(row.class) {
            Ok(parent) => field_of_parent(alloc, scope, row, parent, sig),
            Err(why) => Ok(Known::Bad(why)),
        },
        Known::Bad(why) => match scope.token_type(row.class) {
            Ok(_) => Ok(Known::Bad(*why)),
            Err(why) => Ok(Known::Bad(why)),
        },
    }
}
