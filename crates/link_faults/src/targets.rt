//! The definitions that types lead to, by their ids.

ghost use Rattle.std.specs.Prelude.{◌≡◌, IfOk, nat_lt, if◌then◌else◌, Some, None};
ghost use Rattle.std.specs.Option.{option_copied, option_map};
ghost use Rattle.rules.specs.link_rules.Members.{array_type, owner_of, is_named, only_named};
ghost use Rattle.link_faults.specs.Targets.{linked, id_below, target_of, target_at, named_target_at};

use crate::scope::Scope;
use il_base::core_table::ARRAY;
use il_base::world_model::{
    AsmRec, FIRST_TYPE_DEF, Known, TypeExpr, prim_type, type_id, type_link_at,
};
use il_base::{AsmId, NoMemory, TypeId};

/// The type `System.Array` of the core library, whether it is there or not.
fn array_type(all: &[AsmRec]) -> Result<Option<TypeId>, NoMemory>
    ensures { IfOk result (λ id. id ≡ array_type all.now) }
{
    let row = (ARRAY - FIRST_TYPE_DEF) as usize;
    match type_id(all, all.len().saturating_sub(1), row) {
        None => Err(NoMemory),
        Some(id) => Ok(Some(id)),
    }
}

/// The type whose members a type has.
#[tactic(auto, unfolding(rules::specs::link_rules::Members::owner_of))]
fn owner_of(all: &[AsmRec], ty: &TypeExpr) -> Result<Option<TypeId>, NoMemory>
    ensures { IfOk result (λ id. id ≡ owner_of all.now ty.now) }
{
    match ty {
        TypeExpr::Prim(code) => prim_type(all, *code),
        TypeExpr::Def(id) => Ok(Some(*id)),
        TypeExpr::Inst(id, _) => Ok(Some(*id)),
        TypeExpr::Array(_) => array_type(all),
        TypeExpr::ByRef(_) => Ok(None),
        TypeExpr::Var(_) => Ok(None),
        TypeExpr::MVar(_) => Ok(None),
        TypeExpr::Mod { .. } => Ok(None),
    }
}

/// Whether a type is a class or an interface, alone or with arguments.
#[tactic(auto, unfolding(rules::specs::link_rules::Members::is_named))]
fn is_named(ty: &TypeExpr) -> bool
    ensures { result ≡ is_named ty.now }
{
    match ty {
        TypeExpr::Prim(_) => true,
        TypeExpr::Def(_) => true,
        TypeExpr::Inst(_, _) => true,
        TypeExpr::Array(_) => false,
        TypeExpr::ByRef(_) => false,
        TypeExpr::Var(_) => false,
        TypeExpr::MVar(_) => false,
        TypeExpr::Mod { .. } => false,
    }
}

impl Scope<'_> {
    /// The type that a token of an assembly names, where it names one.
    pub(crate) fn linked(&self, asm: AsmId, token: u32) -> Option<&TypeExpr>
        ensures { option_copied result ≡ linked self.now.all.now self.now.links.now asm.0 token }
    {
        match type_link_at(self.all, self.links, asm, token) {
            Some(Known::Good(ty)) => Some(ty),
            Some(Known::Bad(_)) => None,
            None => None,
        }
    }

    /// The id of the definition of a type, where it has one.
    fn target_of(&self, ty: &TypeExpr) -> Result<Option<u32>, NoMemory>
        ensures { IfOk result (λ id. id ≡ target_of self.now.all.now ty.now) }
    {
        match owner_of(self.all, ty)? {
            None => Ok(None),
            Some(id) => {
                if (id.0 as usize) < self.types {
                    Ok(Some(id.0))
                } else {
                    Ok(None)
                }
            }
        }
    }

    /// The id of the definition that a token of an assembly names, where it names one.
    pub(crate) fn target_at(&self, asm: AsmId, token: u32) -> Result<Option<u32>, NoMemory>
        ensures { IfOk result (λ id. id ≡ target_at self.now.all.now self.now.links.now asm.0 token) }
    {
        match self.linked(asm, token) {
            None => Ok(None),
            Some(ty) => self.target_of(ty),
        }
    }

    /// The id of the definition of the class or interface that a token of an assembly names, where it names one.
    pub(crate) fn named_target_at(&self, asm: AsmId, token: u32) -> Result<Option<u32>, NoMemory>
        ensures { IfOk result (λ id. id ≡ named_target_at self.now.all.now self.now.links.now asm.0 token) }
    {
        let Some(ty) = self.linked(asm, token) else {
            return Ok(None);
        };
        if is_named(ty) {
            self.target_of(ty)
        } else {
            Ok(None)
        }
    }
}
