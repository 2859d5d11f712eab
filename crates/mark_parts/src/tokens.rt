//! The parts that tokens name.

ghost use Rattle.std.specs.Prelude.{◌≡◌, ◌++◌, ◌∷◌, [], IfOk, OnOk};
ghost use Rattle.std.specs.Option.{option_copied};
ghost use Rattle.il_base.specs.world_model.Worlds.{known_map, known_or};
ghost use Rattle.rules.specs.link_rules.Signatures.{token_type};
ghost use Rattle.rules.specs.mark_rules.Naming as naming;
ghost use Rattle.rules.specs.mark_rules.Naming.{method_named, field_named, type_token_part, method_token_part, field_token_part};
ghost use Rattle.mark_parts.specs.mark_facts.Told.{named_told};
ghost use Rattle.mark_parts.specs.mark_tables.Assemblies.{recs_of, place_of, rec_of, IsAssembly};

use crate::mark_facts::part::Named;
use crate::mark_facts::parts::Parts;
use crate::mark_tables::assembly::Assembly;
use base_laws::world_laws::laws::tokens_named;
use il_base::world_model::{BadKind, FieldUse, Known, MethodUse, TypeExpr};
use il_base::{AsmId, NoMemory};
use std::alloc::Global;

/// The link of a MethodDef, MemberRef or MethodSpec token.
pub fn method_link<'a>(asm: &Assembly<'a>, token: u32) -> Option<&'a Known<MethodUse>>
    requires { IsAssembly asm.now }
    ensures { known_or (option_copied result) ≡ method_named (recs_of asm.now) (place_of asm.now) (rec_of asm.now) token }
{
    tokens_named();
    asm.world.method_at(AsmId(asm.scope.asm), token)
}

/// The link of a Field or MemberRef token.
pub fn field_link<'a>(asm: &Assembly<'a>, token: u32) -> Option<&'a Known<FieldUse>>
    requires { IsAssembly asm.now }
    ensures { known_or (option_copied result) ≡ field_named (recs_of asm.now) (place_of asm.now) (rec_of asm.now) token }
{
    tokens_named();
    asm.world.field_at(AsmId(asm.scope.asm), token)
}

/// A copy of a method's use.
fn copy_method(alloc: Global, used: &MethodUse) -> Result<MethodUse, NoMemory>
    ensures { IfOk result (λ u. u ≡ used.now) }
{
    let owner = used.owner.copy(alloc)?;
    let args = TypeExpr::copy_all(alloc, used.args.as_slice())?;
    Ok(MethodUse {
        method: used.method,
        owner,
        args,
    })
}

/// A copy of a field's use.
fn copy_field(alloc: Global, used: &FieldUse) -> Result<FieldUse, NoMemory>
    ensures { IfOk result (λ u. u ≡ used.now) }
{
    let owner = used.owner.copy(alloc)?;
    Ok(FieldUse {
        field: used.field,
        owner,
    })
}

/// What a TypeDef, TypeRef or TypeSpec token names.
fn named_type(alloc: Global, asm: &Assembly<'_>, token: u32) -> Result<Known<Named>, NoMemory>
    requires { IsAssembly asm.now }
    ensures { IfOk result (λ n. known_map named_told n ≡ known_map naming.Named.type (token_type (recs_of asm.now) (place_of asm.now) (rec_of asm.now) token)) }
{
    match asm.scope.token_type(token) {
        Ok(ty) => {
            let ty = ty.copy(alloc)?;
            Ok(Known::Good(Named::Type(ty)))
        }
        Err(why) => Ok(Known::Bad(why)),
    }
}

/// What a MethodDef, MemberRef or MethodSpec token names.
fn named_method(alloc: Global, asm: &Assembly<'_>, token: u32) -> Result<Known<Named>, NoMemory>
    requires { IsAssembly asm.now }
    ensures { IfOk result (λ n. known_map named_told n ≡ known_map naming.Named.method (method_named (recs_of asm.now) (place_of asm.now) (rec_of asm.now) token)) }
{
    match method_link(asm, token) {
        None => Ok(Known::Bad(BadKind::Unresolved)),
        Some(Known::Bad(why)) => Ok(Known::Bad(*why)),
        Some(Known::Good(used)) => {
            let used = copy_method(alloc, used)?;
            Ok(Known::Good(Named::Method(used)))
        }
    }
}

/// What a Field or MemberRef token names.
fn named_field(alloc: Global, asm: &Assembly<'_>, token: u32) -> Result<Known<Named>, NoMemory>
    requires { IsAssembly asm.now }
    ensures { IfOk result (λ n. known_map named_told n ≡ known_map naming.Named.field (field_named (recs_of asm.now) (place_of asm.now) (rec_of asm.now) token)) }
{
    match field_link(asm, token) {
        None => Ok(Known::Bad(BadKind::Unresolved)),
        Some(Known::Bad(why)) => Ok(Known::Bad(*why)),
        Some(Known::Good(used)) => {
            let used = copy_field(alloc, used)?;
            Ok(Known::Good(Named::Field(used)))
        }
    }
}

/// Adds the parts that a type token of a row names; `at` is the offset of an operand, else 0.
pub fn add_type_token(
    alloc: Global,
    asm: &Assembly<'_>,
    row: u32,
    at: u32,
    token: u32,
    parts: &mut Parts,
) -> Result<(), NoMemory>
    requires { IsAssembly asm.now }
    ensures { OnOk result (parts.new ≡ parts.old ++ type_token_part (recs_of asm.now) (place_of asm.now) (rec_of asm.now) row at token ∷ []) }
{
    let named = named_type(alloc, asm, token)?;
    parts.push_known(row, at, named)
}

/// Adds the parts that a method token of an operand names.
pub fn add_method_token(
    alloc: Global,
    asm: &Assembly<'_>,
    row: u32,
    at: u32,
    token: u32,
    parts: &mut Parts,
) -> Result<(), NoMemory>
    requires { IsAssembly asm.now }
    ensures { OnOk result (parts.new ≡ parts.old ++ method_token_part (recs_of asm.now) (place_of asm.now) (rec_of asm.now) row at token ∷ []) }
{
    let named = named_method(alloc, asm, token)?;
    parts.push_known(row, at, named)
}

/// Adds the parts that a field token of an operand names.
pub fn add_field_token(
    alloc: Global,
    asm: &Assembly<'_>,
    row: u32,
    at: u32,
    token: u32,
    parts: &mut Parts,
) -> Result<(), NoMemory>
    requires { IsAssembly asm.now }
    ensures { OnOk result (parts.new ≡ parts.old ++ field_token_part (recs_of asm.now) (place_of asm.now) (rec_of asm.now) row at token ∷ []) }
{
    let named = named_field(alloc, asm, token)?;
    parts.push_known(row, at, named)
}
