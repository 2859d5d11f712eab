//! The types and definitions that tokens of an assembly name in its signatures.

ghost use Rattle.std.specs.Prelude.{◌≡◌, IfOk, MatchResult};
ghost use Rattle.il_base.specs.world_model.Worlds.{type_link_at, prim_type, named_in, definition_of, definition_named, modifier_named, names_by};

use crate::world_model::expr::TypeExpr;
use crate::world_model::known::{BadKind, Known};
use crate::world_model::lookup::{added_link_at, type_link_at};
use crate::world_model::prims::prim_type;
use crate::world_model::record::AsmRec;
use crate::world_model::tokens::table_of;
use crate::world_model::world::TypeLink;
use crate::{AsmId, NoMemory, TypeId, table};

/// The type that a TypeDef or TypeRef token names in a signature, or why it names none. A TypeSpec token names nothing.
#[tactic(auto, unfolding(crate::specs::world_model::Worlds::named_in))]
pub(crate) fn type_named<'a>(
    recs: &[AsmRec],
    links: &'a [TypeLink],
    a: AsmId,
    token: u32,
) -> Result<&'a TypeExpr, BadKind>
    ensures { MatchResult result (λ e. named_in (type_link_at recs.now links.now a.0) token ≡ Known.Good e.now) (λ why. named_in (type_link_at recs.now links.now a.0) token ≡ Known.Bad why) }
{
    if table_of(token) == table::TYPE_SPEC {
        return Err(BadKind::Unresolved);
    }
    match type_link_at(recs, links, a, token) {
        None => Err(BadKind::Unresolved),
        Some(Known::Good(named)) => Ok(named),
        Some(Known::Bad(why)) => Err(*why),
    }
}

/// The definition that a type is where it stands in an instance or a modifier.
#[tactic(auto, unfolding(crate::specs::world_model::Worlds::definition_of))]
fn definition_of(recs: &[AsmRec], named: &TypeExpr) -> Result<Known<TypeId>, NoMemory>
    ensures { IfOk result (λ t. t ≡ definition_of (prim_type recs.now) named.now) }
{
    match named {
        TypeExpr::Prim(code) => match prim_type(recs, *code) {
            Ok(Some(id)) => Ok(Known::Good(id)),
            Ok(None) => Ok(Known::Bad(BadKind::Unresolved)),
            Err(error) => Err(error),
        },
        TypeExpr::Def(id) => Ok(Known::Good(*id)),
        TypeExpr::Inst(_, _) => Ok(Known::Bad(BadKind::Unresolved)),
        TypeExpr::Array(_) => Ok(Known::Bad(BadKind::Unresolved)),
        TypeExpr::ByRef(_) => Ok(Known::Bad(BadKind::Unresolved)),
        TypeExpr::Var(_) => Ok(Known::Bad(BadKind::Unresolved)),
        TypeExpr::MVar(_) => Ok(Known::Bad(BadKind::Unresolved)),
        TypeExpr::Mod { .. } => Ok(Known::Bad(BadKind::Unresolved)),
    }
}

/// The definition that a token names in an instance or a modifier, or why it names none.
#[tactic(auto, unfolding(crate::specs::world_model::Worlds::definition_named))]
pub(crate) fn definition_named(
    recs: &[AsmRec],
    links: &[TypeLink],
    a: AsmId,
    token: u32,
) -> Result<Known<TypeId>, NoMemory>
    ensures { IfOk result (λ t. t ≡ definition_named (names_by recs.now links.now a.0) token) }
{
    match type_named(recs, links, a, token) {
        Ok(named) => definition_of(recs, named),
        Err(why) => Ok(Known::Bad(why)),
    }
}

/// The definition that a modifier's token names, or why it names none (II.7.1.1).
#[tactic(auto, unfolding(crate::specs::world_model::Worlds::modifier_named))]
pub(crate) fn modifier_named(
    recs: &[AsmRec],
    links: &[TypeLink],
    a: AsmId,
    token: u32,
) -> Result<Known<TypeId>, NoMemory>
    ensures { IfOk result (λ t. t ≡ modifier_named (names_by recs.now links.now a.0) token) }
{
    match added_link_at(recs, links, a, token) {
        Some(id) => Ok(Known::Good(id)),
        None => definition_named(recs, links, a, token),
    }
}
