//! The links of tokens in lists of links, which have those of the assemblies in order, and of each assembly those of its
//! rows, table by table.

ghost use Rattle.std.specs.Prelude.{◌≡◌, drop, slice_get, sum_by};
ghost use Rattle.std.specs.Option.{option_copied, option_and_then};
ghost use Rattle.il_base.specs.world_model.Kinds.{rows_in, row_in, link_in};
ghost use Rattle.il_base.specs.world_model.Worlds.{row_below, type_row, method_row, field_row};

use crate::world_model::record::AsmRec;
use crate::world_model::tokens::{index_in, table_of};
use crate::{AsmId, table};

/// The kinds of links.
#[derive(Clone, Copy, Debug, PartialEq, Eq)]
pub enum LinkKind {
    /// A TypeRef, TypeDef or TypeSpec row.
    Type,
    /// A MethodDef, MemberRef or MethodSpec row.
    Method,
    /// A Field or MemberRef row.
    Field,
}

/// The items after the first `count`.
fn behind<T>(items: &[T], count: usize) -> &[T]
    ensures { result.now ≡ drop count items.now }
{
    if count > items.len() {
        &[]
    } else {
        &items[count..]
    }
}

/// The item at a place below `count`.
fn below<T>(items: &[T], count: usize, at: Option<u32>) -> Option<&T>
    ensures { option_copied result ≡ option_and_then (slice_get items.now) (row_below count at) }
{
    match at {
        None => None,
        Some(at) => {
            if (at as usize) < count {
                items.get(at as usize)
            } else {
                None
            }
        }
    }
}

/// The links after those of an assembly's rows.
fn behind_rows<'a, T>(kind: LinkKind, rec: &AsmRec, links: &'a [T]) -> &'a [T]
    ensures { result.now ≡ drop (rows_in kind rec.now) links.now }
{
    match kind {
        LinkKind::Type => {
            let links = behind(links, rec.type_ref.len());
            let links = behind(links, rec.type_def.len());
            behind(links, rec.type_spec.len())
        }
        LinkKind::Method => {
            let links = behind(links, rec.method_def.len());
            let links = behind(links, rec.member_ref.len());
            behind(links, rec.method_spec.len())
        }
        LinkKind::Field => {
            let links = behind(links, rec.field.len());
            behind(links, rec.member_ref.len())
        }
    }
}

/// The links after those of the rows of these assemblies.
fn behind_all<'a, T>(kind: LinkKind, recs: &[AsmRec], links: &'a [T]) -> &'a [T]
    ensures { result.now ≡ drop (sum_by (rows_in kind) recs.now) links.now }
{
    let mut rest = links;
    for rec in recs {
        rest = behind_rows(kind, rec, rest);
    }
    rest
}

/// The link of a type token among those that begin with the assembly's own.
#[tactic(auto, unfolding(crate::specs::world_model::Worlds::type_row))]
fn type_among<'a, T>(rec: &AsmRec, own: &'a [T], token: u32) -> Option<&'a T>
    ensures { option_copied result ≡ option_and_then (slice_get own.now) (type_row rec.now token) }
{
    match table_of(token) {
        table::TYPE_REF => below(own, rec.type_ref.len(), index_in(table::TYPE_REF, token)),
        table::TYPE_DEF => {
            let own = behind(own, rec.type_ref.len());
            below(own, rec.type_def.len(), index_in(table::TYPE_DEF, token))
        }
        _ => {
            let own = behind(own, rec.type_ref.len());
            let own = behind(own, rec.type_def.len());
            below(own, rec.type_spec.len(), index_in(table::TYPE_SPEC, token))
        }
    }
}

/// The link of a method token among those that begin with the assembly's own.
#[tactic(auto, unfolding(crate::specs::world_model::Worlds::method_row))]
fn method_among<'a, T>(rec: &AsmRec, own: &'a [T], token: u32) -> Option<&'a T>
    ensures { option_copied result ≡ option_and_then (slice_get own.now) (method_row rec.now token) }
{
    match table_of(token) {
        table::METHOD_DEF => below(
            own,
            rec.method_def.len(),
            index_in(table::METHOD_DEF, token),
        ),
        table::MEMBER_REF => {
            let own = behind(own, rec.method_def.len());
            below(
                own,
                rec.member_ref.len(),
                index_in(table::MEMBER_REF, token),
            )
        }
        _ => {
            let own = behind(own, rec.method_def.len());
            let own = behind(own, rec.member_ref.len());
            below(
                own,
                rec.method_spec.len(),
                index_in(table::METHOD_SPEC, token),
            )
        }
    }
}

/// The link of a field token among those that begin with the assembly's own.
#[tactic(auto, unfolding(crate::specs::world_model::Worlds::field_row))]
fn field_among<'a, T>(rec: &AsmRec, own: &'a [T], token: u32) -> Option<&'a T>
    ensures { option_copied result ≡ option_and_then (slice_get own.now) (field_row rec.now token) }
{
    if table_of(token) == table::FIELD {
        below(own, rec.field.len(), index_in(table::FIELD, token))
    } else {
        let own = behind(own, rec.field.len());
        below(
            own,
            rec.member_ref.len(),
            index_in(table::MEMBER_REF, token),
        )
    }
}

/// The link of a token among those that begin with the assembly's own.
fn among<'a, T>(kind: LinkKind, rec: &AsmRec, own: &'a [T], token: u32) -> Option<&'a T>
    ensures { option_copied result ≡ option_and_then (slice_get own.now) (row_in kind rec.now token) }
{
    match kind {
        LinkKind::Type => type_among(rec, own, token),
        LinkKind::Method => method_among(rec, own, token),
        LinkKind::Field => field_among(rec, own, token),
    }
}

/// The link of a token of an assembly among all links of its kind, which are those of these assemblies in order, and of
/// each assembly those of its rows. None where there is no such row, no such assembly or no link in its place.
pub fn link_at<'a, T>(
    kind: LinkKind,
    recs: &[AsmRec],
    links: &'a [T],
    a: AsmId,
    token: u32,
) -> Option<&'a T>
    ensures { option_copied result ≡ link_in kind recs.now links.now a.0 token }
{
    let at = a.0 as usize;
    match recs.get(at) {
        None => None,
        Some(rec) => among(kind, rec, behind_all(kind, &recs[..at], links), token),
    }
}
