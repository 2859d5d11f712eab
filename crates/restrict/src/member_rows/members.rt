//! MemberRef rows.

ghost use Rattle.std.specs.Prelude.{◌≡◌, ◌++◌, map, IfOk, OnOk};
ghost use Rattle.std.specs.List.{flat_map};
ghost use Rattle.token_keys.specs.key_codes.Keys as coded;
ghost use Rattle.restrict.specs.member_rows.Rows.{AreRowParts, recs_of, method_row_by, field_row_by, method_rows_at, field_rows_at, found_method_by, found_field_by, absent_by, member_ref_by, member_refs_by};

use crate::member_rows::parts::{RowParts, parent_token};
use il_base::world_model::{Known, MemberRefRow, MemberSig, TypeExpr};
use il_base::{FieldId, MethodId, MethodSig, NoMemory, Seq, Sig};
use merge_plan::moved_parts::{NewTokens, moved_sig};
use reference_rows::own_members::fields::{field_at, field_name, own_field_sig};
use reference_rows::own_members::methods::{
    method_at, method_name, own_method_sig, signature_with,
};
use rules::link_rules::RowAt;
use std::alloc::Global;
use token_keys::key_codes::keys::{AbsentMethod, MemberKey};

/// The row of a method by its parent, its name and its signature over the types of the world.
fn method_row(
    alloc: Global,
    tokens: &NewTokens,
    class: u32,
    name: &[u8],
    sig: &MethodSig,
) -> Result<MemberRefRow, NoMemory>
    ensures { IfOk result (λ row. row ≡ method_row_by tokens.now class name.now sig.now) }
{
    let name = Seq::from_slice(alloc, name)?;
    let sig = signature_with(alloc, tokens, sig)?;
    Ok(MemberRefRow {
        class,
        name,
        signature: Known::Good(MemberSig::Method(sig)),
    })
}

/// The row of a field by its parent, its name and its signature over the types of the world.
fn field_row(
    alloc: Global,
    tokens: &NewTokens,
    class: u32,
    name: &[u8],
    sig: &Sig,
) -> Result<MemberRefRow, NoMemory>
    ensures { IfOk result (λ row. row ≡ field_row_by tokens.now class name.now sig.now) }
{
    let name = Seq::from_slice(alloc, name)?;
    let sig = moved_sig(alloc, tokens, sig)?;
    Ok(MemberRefRow {
        class,
        name,
        signature: Known::Good(MemberSig::Field(sig)),
    })
}

/// Puts the row of the method in a row at the end; of one whose signature has no reading there is none.
fn push_method_at(
    alloc: Global,
    parts: &RowParts<'_>,
    at: RowAt,
    class: u32,
    rows: &mut Seq<MemberRefRow>,
) -> Result<(), NoMemory>
    requires { AreRowParts parts.now }
    ensures { OnOk result (rows.new ≡ rows.old ++ method_rows_at parts.now.numbers.now (recs_of parts.now) class at) }
{
    let marker = parts.world.marker;
    let recs = marker.tables.world.recs.as_slice();
    match own_method_sig(alloc, recs, parts.world.numbers, at) {
        Ok(Some(sig)) => {
            let row = method_row(alloc, parts.numbers, class, method_name(recs, at), &sig)?;
            rows.push(row)?;
            Ok(())
        }
        Ok(None) => Ok(()),
        Err(error) => Err(error),
    }
}

/// Puts the row of the field in a row at the end; of one whose signature has no reading there is none.
fn push_field_at(
    alloc: Global,
    parts: &RowParts<'_>,
    at: RowAt,
    class: u32,
    rows: &mut Seq<MemberRefRow>,
) -> Result<(), NoMemory>
    requires { AreRowParts parts.now }
    ensures { OnOk result (rows.new ≡ rows.old ++ field_rows_at parts.now.numbers.now (recs_of parts.now) class at) }
{
    let marker = parts.world.marker;
    let recs = marker.tables.world.recs.as_slice();
    match own_field_sig(alloc, recs, parts.world.numbers, at) {
        Ok(Some(sig)) => {
            let row = field_row(alloc, parts.numbers, class, field_name(recs, at), &sig)?;
            rows.push(row)?;
            Ok(())
        }
        Ok(None) => Ok(()),
        Err(error) => Err(error),
    }
}

/// Puts the row of a method with the type in which it is found at the end.
fn push_method(
    alloc: Global,
    parts: &RowParts<'_>,
    id: MethodId,
    owner: &TypeExpr,
    rows: &mut Seq<MemberRefRow>,
) -> Result<(), NoMemory>
    requires { AreRowParts parts.now }
    ensures { OnOk result (rows.new ≡ rows.old ++ found_method_by parts.now id owner.now) }
{
    let marker = parts.world.marker;
    let class = parent_token(alloc, parts, owner)?;
    let found = method_at(marker.tables.world.recs.as_slice(), id)?;
    match found {
        None => Ok(()),
        Some(at) => {
            push_method_at(alloc, parts, at, class, rows)?;
            Ok(())
        }
    }
}

/// Puts the row of a field with the type in which it is found at the end.
fn push_field(
    alloc: Global,
    parts: &RowParts<'_>,
    id: FieldId,
    owner: &TypeExpr,
    rows: &mut Seq<MemberRefRow>,
) -> Result<(), NoMemory>
    requires { AreRowParts parts.now }
    ensures { OnOk result (rows.new ≡ rows.old ++ found_field_by parts.now id owner.now) }
{
    let marker = parts.world.marker;
    let class = parent_token(alloc, parts, owner)?;
    let found = field_at(marker.tables.world.recs.as_slice(), id)?;
    match found {
        None => Ok(()),
        Some(at) => {
            push_field_at(alloc, parts, at, class, rows)?;
            Ok(())
        }
    }
}

/// Puts the row of a method that names nothing at the end.
fn push_absent(
    alloc: Global,
    parts: &RowParts<'_>,
    method: &AbsentMethod,
    rows: &mut Seq<MemberRefRow>,
) -> Result<(), NoMemory>
    requires { AreRowParts parts.now }
    ensures { OnOk result (rows.new ≡ rows.old ++ absent_by parts.now method.now) }
{
    let class = parts.keys.of_type(alloc, &method.parent)?;
    let row = method_row(
        alloc,
        parts.numbers,
        class,
        method.name.as_slice(),
        &method.signature,
    )?;
    rows.push(row)?;
    Ok(())
}

/// Puts the row of a member at the end.
fn push_member(
    alloc: Global,
    parts: &RowParts<'_>,
    key: &MemberKey,
    rows: &mut Seq<MemberRefRow>,
) -> Result<(), NoMemory>
    requires { AreRowParts parts.now }
    ensures { OnOk result (rows.new ≡ rows.old ++ member_ref_by parts.now (coded.member_key key.now)) }
{
    match key {
        MemberKey::Method(id, owner) => {
            push_method(alloc, parts, *id, owner, rows)?;
            Ok(())
        }
        MemberKey::Field(id, owner) => {
            push_field(alloc, parts, *id, owner, rows)?;
            Ok(())
        }
        MemberKey::Absent(method) => {
            push_absent(alloc, parts, method, rows)?;
            Ok(())
        }
    }
}

/// The rows of these members, in their order.
fn rows_of(
    alloc: Global,
    parts: &RowParts<'_>,
    members: &[MemberKey],
) -> Result<Seq<MemberRefRow>, NoMemory>
    requires { AreRowParts parts.now }
    ensures { IfOk result (λ rows. rows ≡ flat_map (member_ref_by parts.now) (map coded.member_key members.now)) }
{
    let mut rows = Seq::new(alloc);
    for key in members {
        push_member(alloc, parts, key, &mut rows)?;
    }
    Ok(rows)
}

/// The MemberRef rows of the output: of each member that it refers to, in the order in which they are first met, its parent, its name
/// and its own signature.
pub fn member_ref_rows(alloc: Global, parts: &RowParts<'_>) -> Result<Seq<MemberRefRow>, NoMemory>
    requires { AreRowParts parts.now }
    ensures { IfOk result (λ rows. rows ≡ member_refs_by parts.now) }
{
    let members = parts.keys.members;
    let rows = rows_of(alloc, parts, members.firsts())?;
    Ok(rows)
}
