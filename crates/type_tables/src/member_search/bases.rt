ghost use Rattle.std.specs.Prelude.{◌≡◌, IfOk};
ghost use Rattle.std.specs.Option.{option_and_then, option_copied};
ghost use Rattle.rules.specs.link_rules.Members.{array_type, owner_of, args_of, type_home, is_named, is_interface_row, base_at, base_of};
ghost use Rattle.rules.specs.link_rules.Cycles.{is_interface_at, is_interface};
ghost use Rattle.type_tables.specs.member_search.Linked.{IsLinked};

use crate::member_search::homes::type_home;
use crate::member_search::linked::{Linked, Scope, assembly_at};
use il_base::core_table::ARRAY;
use il_base::type_flags::INTERFACE;
use il_base::world_model::{AsmRec, TypeDefRow, TypeExpr, index_in, prim_type, type_id};
use il_base::{NoMemory, TypeId, has_type_flag, table};
use rules::link_rules::RowAt;
use std::alloc::Global;

/// The type System.Array of the core library.
pub fn array_type(all: &[AsmRec]) -> Result<Option<TypeId>, NoMemory>
    ensures { IfOk result (λ id. id ≡ array_type all.now) }
{
    let Some(row) = index_in(table::TYPE_DEF, ARRAY) else {
        return Ok(None);
    };
    match type_id(all, all.len().saturating_sub(1), row as usize) {
        Some(id) => Ok(Some(id)),
        None => Err(NoMemory),
    }
}

/// The definition from which a type has its members.
#[tactic(auto, unfolding(rules::specs::link_rules::Members::owner_of))]
pub fn owner_of(all: &[AsmRec], ty: &TypeExpr) -> Result<Option<TypeId>, NoMemory>
    ensures { IfOk result (λ id. id ≡ owner_of all.now ty.now) }
{
    match ty {
        TypeExpr::Prim(code) => match prim_type(all, *code) {
            Ok(id) => Ok(id),
            Err(error) => Err(error),
        },
        TypeExpr::Def(id) => Ok(Some(*id)),
        TypeExpr::Inst(id, _) => Ok(Some(*id)),
        TypeExpr::Array(_) => array_type(all),
        TypeExpr::ByRef(_) => Ok(None),
        TypeExpr::Var(_) => Ok(None),
        TypeExpr::MVar(_) => Ok(None),
        TypeExpr::Mod { .. } => Ok(None),
    }
}

/// The arguments of a type.
#[tactic(auto, unfolding(rules::specs::link_rules::Members::args_of))]
pub fn args_of(ty: &TypeExpr) -> &[TypeExpr]
    ensures { result.now ≡ args_of ty.now }
{
    match ty {
        TypeExpr::Inst(_, args) => args.as_slice(),
        TypeExpr::Prim(_) => &[],
        TypeExpr::Def(_) => &[],
        TypeExpr::Array(_) => &[],
        TypeExpr::ByRef(_) => &[],
        TypeExpr::Var(_) => &[],
        TypeExpr::MVar(_) => &[],
        TypeExpr::Mod { .. } => &[],
    }
}

/// The assembly and row of the definition from which a type has its members.
pub fn definition(all: &[AsmRec], ty: &TypeExpr) -> Result<Option<RowAt>, NoMemory>
    ensures { IfOk result (λ at. at ≡ option_and_then (type_home all.now) (owner_of all.now ty.now)) }
{
    match owner_of(all, ty) {
        Ok(Some(id)) => type_home(all, id),
        Ok(None) => Ok(None),
        Err(error) => Err(error),
    }
}

/// Whether a type is an interface, by its flags (II.23.1.15).
fn is_interface_row(row: &TypeDefRow) -> bool
    ensures { result ≡ is_interface_row row.now }
{
    has_type_flag(row.flags, INTERFACE)
}

/// Whether a type definition is an interface.
pub fn is_interface_at(all: &[AsmRec], at: RowAt) -> bool
    ensures { result ≡ is_interface_at all.now at }
{
    match assembly_at(all, at.asm) {
        Some(rec) => match rec.type_def.get(at.row as usize) {
            Some(row) => is_interface_row(row),
            None => false,
        },
        None => false,
    }
}

/// Whether a type is an interface, alone or with arguments.
#[tactic(auto, unfolding(rules::specs::link_rules::Cycles::is_interface))]
pub fn is_interface(all: &[AsmRec], ty: &TypeExpr) -> Result<bool, NoMemory>
    ensures { IfOk result (λ is. is ≡ is_interface all.now ty.now) }
{
    match definition(all, ty) {
        Ok(Some(at)) => Ok(is_interface_at(all, at)),
        Ok(None) => Ok(false),
        Err(error) => Err(error),
    }
}

/// Whether this is a class or an interface, alone or with arguments: what a base can be.
#[tactic(auto, unfolding(rules::specs::link_rules::Members::is_named))]
fn is_named(ty: &TypeExpr) -> bool
    ensures { result ≡ is_named ty.now }
{
    match ty {
        TypeExpr::Prim(_) => true,
        TypeExpr::Def(_) => true,
        TypeExpr::Inst(_, _) => true,
        TypeExpr::Array(_) => false,
        TypeExpr::ByRef(_) => false,
        TypeExpr::Var(_) => false,
        TypeExpr::MVar(_) => false,
        TypeExpr::Mod { .. } => false,
    }
}

/// The base that the row of a class names: a class or an interface, alone or with arguments. An interface has none,
/// whatever its row names (II.22.37).
pub fn base_at<'a>(linked: &Linked<'a>, at: RowAt) -> Option<&'a TypeExpr>
    requires { IsLinked linked.now }
    ensures { option_copied result ≡ base_at linked.now.all.now at }
{
    let rec = assembly_at(linked.all, at.asm)?;
    let row = rec.type_def.get(at.row as usize)?;
    if row.extends == 0 || is_interface_row(row) {
        return None;
    }
    let scope = Scope {
        linked: *linked,
        asm: at.asm,
        rec,
    };
    match scope.token_type(row.extends) {
        Ok(base) if is_named(base) => Some(base),
        Ok(_) => None,
        Err(_) => None,
    }
}

/// The base of a type, with the type's arguments put in.
#[tactic(auto, unfolding(rules::specs::link_rules::Members::base_of))]
pub fn base_of(
    alloc: Global,
    linked: &Linked<'_>,
    ty: &TypeExpr,
) -> Result<Option<TypeExpr>, NoMemory>
    requires { IsLinked linked.now }
    ensures { IfOk result (λ base. base ≡ base_of linked.now.all.now ty.now) }
{
    let Some(at) = definition(linked.all, ty)? else {
        return Ok(None);
    };
    match base_at(linked, at) {
        None => Ok(None),
        Some(base) => {
            let base = base.subst(alloc, args_of(ty), &[])?;
            Ok(Some(base))
        }
    }
}
