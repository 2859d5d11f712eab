//! Keys of types.

ghost use Rattle.std.specs.Prelude.{◌≡◌, slice_get, IfOk};
ghost use Rattle.std.specs.Option.{option_copied, option_map, option_and_then};
ghost use Rattle.il_base.specs.declared.table.TheConstants.{TYPE_SPEC};
ghost use Rattle.il_base.specs.world_model.Tokens.{index_in};
ghost use Rattle.type_tables.specs.Tables.{IsTables};
ghost use Rattle.rules.specs.merge_rules.Keys.{spec, numbered_key, class_number, made_sig, spec_key, type_key, expr_key};
ghost use Rattle.token_keys.specs.key_codes.Keys as coded;
ghost use Rattle.token_keys.specs.Keys.{IsKeys, recs_of, place_of, rec_of};

use crate::key_codes::keys::TypeKey;
use crate::keys::Keys;
use crate::made::made_sig;
use crate::sigs::world_sig;
use il_base::world_model::{AsmRec, Known, TypeExpr, TypeSpecRow, index_in, prim_type, table_of};
use il_base::{NoMemory, TypeId, table};
use std::alloc::Global;
use type_tables::tables::Tables;

/// The row of TypeSpec that a token names (II.22.39).
fn spec_row(rec: &AsmRec, token: u32) -> Option<&TypeSpecRow>
    ensures { option_copied result ≡ option_and_then (slice_get rec.now.type_spec) (index_in TYPE_SPEC token) }
{
    match index_in(table::TYPE_SPEC, token) {
        None => None,
        Some(k) => rec.type_spec.get(k as usize),
    }
}

/// The key of a row of TypeSpec: its signature over the types of the world.
fn spec_key(
    alloc: Global,
    keys: &Keys<'_>,
    row: Option<&TypeSpecRow>,
) -> Result<Option<TypeKey>, NoMemory>
    requires { IsKeys keys.now }
    ensures { IfOk result (λ k. option_map coded.type_key k ≡ spec_key (recs_of keys.now) (place_of keys.now) (rec_of keys.now) (option_copied row.entry)) }
{
    let Some(row) = row else {
        return Ok(None);
    };
    match &row.signature {
        Known::Good(sig) => {
            let sig = world_sig(alloc, keys, sig)?;
            Ok(Some(TypeKey::Spec(sig)))
        }
        Known::Bad(_) => Ok(None),
    }
}

/// The key of the type of a number; None for 0.
fn numbered_key(number: u32) -> Option<TypeKey>
    ensures { option_map coded.type_key result ≡ numbered_key number }
{
    if number == 0 {
        return None;
    }
    Some(TypeKey::Named(TypeId(number - 1)))
}

/// The number of the type that a token names as a class or a value type.
fn class_number(keys: &Keys<'_>, token: u32) -> u32
    requires { IsKeys keys.now }
    ensures { result ≡ class_number (recs_of keys.now) (place_of keys.now) (rec_of keys.now) token }
{
    keys.numbers.classes.get(token)
}

/// The key of the type that a TypeDef, TypeRef or TypeSpec token names; a TypeSpec token stays one. None for a token that names no
/// row, and for a TypeSpec row whose signature has no reading.
#[tactic(auto, unfolding(rules::specs::merge_rules::Keys::type_key))]
pub fn type_key(alloc: Global, keys: &Keys<'_>, token: u32) -> Result<Option<TypeKey>, NoMemory>
    requires { IsKeys keys.now }
    ensures { IfOk result (λ k. option_map coded.type_key k ≡ type_key (recs_of keys.now) (place_of keys.now) (rec_of keys.now) token) }
{
    if table_of(token) == table::TYPE_SPEC {
        let key = spec_key(alloc, keys, spec_row(keys.asm.scope.rec, token))?;
        return Ok(key);
    }
    Ok(numbered_key(class_number(keys, token)))
}

/// The key of a primitive; None where the core library has no type for it.
fn prim_key(recs: &[AsmRec], code: u8) -> Result<Option<TypeKey>, NoMemory>
    ensures { IfOk result (λ k. option_map coded.type_key k ≡ expr_key recs.now (TypeExpr.Prim code)) }
{
    match prim_type(recs, code) {
        Ok(Some(id)) => Ok(Some(TypeKey::Named(id))),
        Ok(None) => Ok(None),
        Err(error) => Err(error),
    }
}

/// The key of a type by its signature.
fn made_key(alloc: Global, tables: &Tables<'_>, ty: &TypeExpr) -> Result<Option<TypeKey>, NoMemory>
    requires { IsTables tables.now }
    ensures { IfOk result (λ k. option_map coded.type_key k ≡ Some (spec (made_sig tables.now.world.now.recs ty.now))) }
{
    let sig = made_sig(alloc, tables, ty)?;
    Ok(Some(TypeKey::Spec(sig)))
}

/// The key of a type that is written from a use: an owner of a member. None for a primitive that the core library has no type for.
#[tactic(auto, unfolding(rules::specs::merge_rules::Keys::expr_key))]
pub fn expr_key(
    alloc: Global,
    tables: &Tables<'_>,
    ty: &TypeExpr,
) -> Result<Option<TypeKey>, NoMemory>
    requires { IsTables tables.now }
    ensures { IfOk result (λ k. option_map coded.type_key k ≡ expr_key tables.now.world.now.recs ty.now) }
{
    match ty {
        TypeExpr::Prim(code) => prim_key(tables.world.recs.as_slice(), *code),
        TypeExpr::Def(id) => Ok(Some(TypeKey::Named(*id))),
        TypeExpr::Inst(_, _) => made_key(alloc, tables, ty),
        TypeExpr::Array(_) => made_key(alloc, tables, ty),
        TypeExpr::ByRef(_) => made_key(alloc, tables, ty),
        TypeExpr::Var(_) => made_key(alloc, tables, ty),
        TypeExpr::MVar(_) => made_key(alloc, tables, ty),
        TypeExpr::Mod { .. } => made_key(alloc, tables, ty),
    }
}
