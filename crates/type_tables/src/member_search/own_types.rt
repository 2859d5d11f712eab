ghost use Rattle.std.specs.Prelude.{◌≡◌, Some, slice_get, IfOk};
ghost use Rattle.il_base.specs.world_model.Worlds.{type_id};
ghost use Rattle.rules.specs.link_rules.Signatures.{prim_at, definition_expr};
ghost use Rattle.rules.specs.link_rules.Members.{own_args, own_type, open_parent};
ghost use Rattle.type_tables.specs.member_search.Params.{AreParamCounts};

use crate::member_search::bases::array_type;
use crate::member_search::params::{ParamCounts, param_count};
use il_base::world_model::{AsmRec, TypeExpr, prim_of, type_id};
use il_base::{NoMemory, Seq, TypeId};
use rules::link_rules::RowAt;
use std::alloc::Global;

/// The generic parameters of a type, as arguments.
pub fn own_args(alloc: Global, count: u32) -> Result<Seq<TypeExpr>, NoMemory>
    ensures { IfOk result (λ args. args ≡ own_args count) }
{
    let mut args = Seq::new(alloc);
    for k in 0..count {
        args.push(TypeExpr::Var(k))?;
    }
    Ok(args)
}

/// The element type of a primitive of the core library, which is the last assembly; None for any other type.
fn prim_at(all: &[AsmRec], at: RowAt) -> Option<u8>
    ensures { result ≡ prim_at all.now at }
{
    match all {
        [] => None,
        [others @ .., core] => {
            if at.asm as usize != others.len() {
                return None;
            }
            match core.type_def.get(at.row as usize) {
                Some(row) => prim_of(row),
                None => None,
            }
        }
    }
}

fn id_of(all: &[AsmRec], at: RowAt) -> Result<TypeId, NoMemory>
    ensures { IfOk result (λ id. id ≡ type_id all.now at.asm at.row) }
{
    match type_id(all, at.asm as usize, at.row as usize) {
        Some(id) => Ok(id),
        None => Err(NoMemory),
    }
}

/// A type definition as a type. A primitive of the core library is its element type.
#[tactic(auto, unfolding(rules::specs::link_rules::Signatures::definition_expr))]
pub fn definition_expr(all: &[AsmRec], at: RowAt) -> Result<TypeExpr, NoMemory>
    ensures { IfOk result (λ ty. ty ≡ definition_expr all.now at) }
{
    match prim_at(all, at) {
        Some(code) => Ok(TypeExpr::Prim(code)),
        None => {
            let id = id_of(all, at)?;
            Ok(TypeExpr::Def(id))
        }
    }
}

/// A definition as a type: with its own generic parameters as arguments.
#[tactic(auto, unfolding(rules::specs::link_rules::Members::own_type))]
pub fn own_type(
    alloc: Global,
    all: &[AsmRec],
    rec: &AsmRec,
    params: &ParamCounts,
    at: RowAt,
) -> Result<TypeExpr, NoMemory>
    requires { AreParamCounts rec.now params.now }
    ensures { IfOk result (λ ty. ty ≡ own_type all.now rec.now at) }
{
    let count = param_count(rec, params, at.row)?;
    if count == 0 {
        return definition_expr(all, at);
    }
    let id = id_of(all, at)?;
    let args = own_args(alloc, count)?;
    Ok(TypeExpr::Inst(id, args))
}

/// A parent with its own generic parameters in place of its arguments, since a reference's signature is written in these;
/// System.Array for an array.
#[tactic(auto, unfolding(rules::specs::link_rules::Members::open_parent))]
pub fn open_parent(alloc: Global, all: &[AsmRec], parent: &TypeExpr) -> Result<TypeExpr, NoMemory>
    ensures { IfOk result (λ ty. ty ≡ open_parent all.now parent.now) }
{
    match parent {
        TypeExpr::Inst(id, args) => {
            let Ok(count) = u32::try_from(args.len()) else {
                return Err(NoMemory);
            };
            let args = own_args(alloc, count)?;
            Ok(TypeExpr::Inst(*id, args))
        }
        TypeExpr::Array(_) => match array_type(all) {
            Ok(Some(id)) => Ok(TypeExpr::Def(id)),
            Ok(None) => parent.copy(alloc),
            Err(error) => Err(error),
        },
        TypeExpr::Prim(_) => parent.copy(alloc),
        TypeExpr::Def(_) => parent.copy(alloc),
        TypeExpr::ByRef(_) => parent.copy(alloc),
        TypeExpr::Var(_) => parent.copy(alloc),
        TypeExpr::MVar(_) => parent.copy(alloc),
        TypeExpr::Mod { .. } => parent.copy(alloc),
    }
}
