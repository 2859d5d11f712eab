//! The number of the type that a token names.

ghost use Rattle.std.specs.Prelude.{◌≡◌, suc, IfOk};
ghost use Rattle.il_base.specs.declared.table.TheConstants.{TYPE_REF};
ghost use Rattle.il_base.specs.world_model.Tokens.{index_in};
ghost use Rattle.il_base.specs.declared.world_model.known.Known.TheVariants as Known;
ghost use Rattle.rules.specs.link_rules.Signatures.{named_type};
ghost use Rattle.rules.specs.link_rules.Types.{added_by};
ghost use Rattle.rules.specs.merge_rules.Keys.{number_of, absent_number, class_number, modifier_number};
ghost use Rattle.mark_parts.specs.mark_tables.Assemblies.{recs_of, place_of, rec_of, IsAssembly};
ghost use Rattle.token_keys.specs.absent_types.References as refs;
ghost use Rattle.token_keys.specs.absent_types.References.{IsReferences};

use crate::absent_types::references::References;
use il_base::world_model::{AsmRec, TypeExpr, added_link_at, index_in, prim_type, table_of};
use il_base::{AsmId, NoMemory, TypeId, table};
use mark_parts::mark_tables::assembly::Assembly;
use rules::link_rules::RowAt;
use std::alloc::Global;

/// The number of a type: one more than its place among the types of the world.
fn number_of_id(id: TypeId) -> Result<u32, NoMemory>
    ensures { IfOk result (λ n. n ≡ suc id.0) }
{
    id.0.checked_add(1).ok_or(NoMemory)
}

/// The number of a primitive; 0 where the core library has no type for it.
fn number_of_prim(recs: &[AsmRec], code: u8) -> Result<u32, NoMemory>
    ensures { IfOk result (λ n. n ≡ number_of recs.now (Known.Good (TypeExpr.Prim code))) }
{
    match prim_type(recs, code) {
        Ok(Some(id)) => {
            let number = number_of_id(id)?;
            Ok(number)
        }
        Ok(None) => Ok(0),
        Err(error) => Err(error),
    }
}

/// The number of a definition or a primitive; 0 for any other type.
fn number_of(recs: &[AsmRec], named: &TypeExpr) -> Result<u32, NoMemory>
    ensures { IfOk result (λ n. n ≡ number_of recs.now (Known.Good named.now)) }
{
    match named {
        TypeExpr::Prim(code) => number_of_prim(recs, *code),
        TypeExpr::Def(id) => number_of_id(*id),
        TypeExpr::Inst(_, _) => Ok(0),
        TypeExpr::Array(_) => Ok(0),
        TypeExpr::ByRef(_) => Ok(0),
        TypeExpr::Var(_) => Ok(0),
        TypeExpr::MVar(_) => Ok(0),
        TypeExpr::Mod { .. } => Ok(0),
    }
}

/// The number of the type that a token names; 0 for a token that names none, and for a TypeSpec token.
fn named_number(asm: &Assembly<'_>, token: u32) -> Result<u32, NoMemory>
    requires { IsAssembly asm.now }
    ensures { IfOk result (λ n. n ≡ number_of (recs_of asm.now) (named_type (recs_of asm.now) (place_of asm.now) (rec_of asm.now) token)) }
{
    let of = table_of(token);
    if of == table::TYPE_SPEC {
        return Ok(0);
    }
    match asm.scope.token_type(token) {
        Ok(named) => {
            let number = number_of(asm.scope.linked.all, named)?;
            Ok(number)
        }
        Err(_) => Ok(0),
    }
}

/// The number of the reference that a TypeRef token is, as one that names nothing; 0 for any other token.
fn absent_number(
    alloc: Global,
    references: &References<'_>,
    asm: u32,
    token: u32,
) -> Result<u32, NoMemory>
    requires { IsReferences references.now }
    ensures { IfOk result (λ n. n ≡ absent_number (refs.recs_of references.now) asm token) }
{
    let Some(row) = index_in(table::TYPE_REF, token) else {
        return Ok(0);
    };
    match references.absent_type(alloc, RowAt { asm, row }) {
        Ok(Some(id)) => number_of_id(id),
        Ok(None) => Ok(0),
        Err(error) => Err(error),
    }
}

/// The number of the type that a token of an assembly names as a class or a value type. A token without a row has 0.
#[tactic(auto, unfolding(rules::specs::merge_rules::Keys::class_number))]
pub fn class_number(
    alloc: Global,
    asm: &Assembly<'_>,
    references: &References<'_>,
    token: u32,
) -> Result<u32, NoMemory>
    requires asm { IsAssembly asm.now }
    requires references { IsReferences references.now }
    requires same { refs.recs_of references.now ≡ recs_of asm.now }
    ensures { IfOk result (λ n. n ≡ class_number (recs_of asm.now) (place_of asm.now) (rec_of asm.now) token) }
{
    let named = named_number(asm, token)?;
    if named != 0 {
        return Ok(named);
    }
    absent_number(alloc, references, asm.scope.asm, token)
}

/// The type that a token of an assembly names for a modifier alone (II.7.1.1).
fn added(asm: &Assembly<'_>, token: u32) -> Option<TypeId>
    requires { IsAssembly asm.now }
    ensures { result ≡ added_by (recs_of asm.now) (place_of asm.now) (rec_of asm.now) token }
{
    added_link_at(
        asm.world.recs.as_slice(),
        asm.world.types.as_slice(),
        AsmId(asm.scope.asm),
        token,
    )
}

/// The number of the type that a token of an assembly names as a modifier. A token without a row has 0.
pub fn modifier_number(
    alloc: Global,
    asm: &Assembly<'_>,
    references: &References<'_>,
    token: u32,
) -> Result<u32, NoMemory>
    requires asm { IsAssembly asm.now }
    requires references { IsReferences references.now }
    requires same { refs.recs_of references.now ≡ recs_of asm.now }
    ensures { IfOk result (λ n. n ≡ modifier_number (recs_of asm.now) (place_of asm.now) (rec_of asm.now) token) }
{
    match added(asm, token) {
        Some(id) => number_of_id(id),
        None => class_number(alloc, asm, references, token),
    }
}
