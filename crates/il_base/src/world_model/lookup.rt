//! What a token of an assembly names in a world. No look-up takes memory.

ghost use Rattle.std.specs.Prelude.{◌≡◌};
ghost use Rattle.std.specs.Option.{option_copied};
ghost use Rattle.il_base.specs.world_model.Worlds.{type_link_at, added_link_at, type_at, method_at, field_at};

use crate::world_model::expr::{FieldUse, MethodUse, TypeExpr};
use crate::world_model::known::Known;
use crate::world_model::links::{LinkKind, link_at};
use crate::world_model::record::AsmRec;
use crate::world_model::tokens::table_of;
use crate::world_model::world::{TypeLink, World};
use crate::{AsmId, TypeId, table};

/// What a TypeRef, TypeDef or TypeSpec token of an assembly names by these links, which are those of these assemblies in
/// order, and of each assembly those of its TypeRef, TypeDef and TypeSpec rows. None where there is no such row, no such
/// assembly or no link in its place.
#[tactic(auto, unfolding(crate::specs::world_model::Worlds::type_link_at))]
pub fn type_link_at<'a>(
    recs: &[AsmRec],
    links: &'a [TypeLink],
    a: AsmId,
    token: u32,
) -> Option<&'a Known<TypeExpr>>
    ensures { option_copied result ≡ type_link_at recs.now links.now a.0 token }
{
    match link_at(LinkKind::Type, recs, links, a, token) {
        None => None,
        Some(link) => Some(&link.to),
    }
}

/// The type of the core library that a modifier alone finds under a TypeRef token of an assembly, by these links.
#[tactic(auto, unfolding(crate::specs::world_model::Worlds::added_link_at))]
pub fn added_link_at(recs: &[AsmRec], links: &[TypeLink], a: AsmId, token: u32) -> Option<TypeId>
    ensures { result ≡ added_link_at recs.now links.now a.0 token }
{
    if table_of(token) != table::TYPE_REF {
        return None;
    }
    match link_at(LinkKind::Type, recs, links, a, token) {
        None => None,
        Some(link) => link.added,
    }
}

impl World {
    /// What a TypeRef, TypeDef or TypeSpec token of an assembly names; None where there is no such row.
    pub fn type_at(&self, a: AsmId, token: u32) -> Option<&Known<TypeExpr>>
        ensures { option_copied result ≡ type_at self.now a.0 token }
    {
        type_link_at(self.recs.as_slice(), self.types.as_slice(), a, token)
    }

    /// What a MethodDef, MemberRef or MethodSpec token of an assembly names; None where there is no such row.
    #[tactic(auto, unfolding(crate::specs::world_model::Worlds::method_at))]
    pub fn method_at(&self, a: AsmId, token: u32) -> Option<&Known<MethodUse>>
        ensures { option_copied result ≡ method_at self.now a.0 token }
    {
        match link_at(
            LinkKind::Method,
            self.recs.as_slice(),
            self.methods.as_slice(),
            a,
            token,
        ) {
            None => None,
            Some(link) => Some(&link.to),
        }
    }

    /// What a Field or MemberRef token of an assembly names; None where there is no such row.
    #[tactic(auto, unfolding(crate::specs::world_model::Worlds::field_at))]
    pub fn field_at(&self, a: AsmId, token: u32) -> Option<&Known<FieldUse>>
        ensures { option_copied result ≡ field_at self.now a.0 token }
    {
        match link_at(
            LinkKind::Field,
            self.recs.as_slice(),
            self.fields.as_slice(),
            a,
            token,
        ) {
            None => None,
            Some(link) => Some(&link.to),
        }
    }
}
