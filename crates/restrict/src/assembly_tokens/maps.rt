//! Maps from the tokens of an assembly to those of the output.

ghost use Rattle.std.specs.Prelude.{◌≡◌, ℕ, IfOk, OnOk};
ghost use Rattle.merge_plan.specs.moved_parts.Moves.{new_token};
ghost use Rattle.token_keys.specs.type_numbers.Filled.{IsFilled, IsWhole};
ghost use Rattle.restrict.specs.assembly_tokens.Tokens.{IsMoving, class_by, modifier_by, type_by, callee_by, field_by, locals_by, moved_by, AreMovedTokens};

use crate::assembly_tokens::moving::Moving;
use il_base::{NoMemory, table};
use merge_plan::moved_parts::{NewTokens, TokenMap};
use std::alloc::Global;
use token_keys::absent_types::rows::row_token;
use type_tables::member_search::counted::row_of;

/// Where a token stands.
#[derive(Clone, Copy)]
enum Stand {
    /// A class or a value type in a signature (II.23.2).
    Class,
    /// A modifier in a signature.
    Modifier,
    /// A type in code or a row.
    Typed,
    Callee,
    Field,
    Locals,
}

/// What a token becomes.
fn moved(alloc: Global, moving: &Moving<'_>, stand: Stand, token: u32) -> Result<u32, NoMemory>
    requires { IsMoving moving.now }
    ensures { IfOk result (λ t. t ≡ moved_by stand moving.now token) }
{
    match stand {
        Stand::Class => Ok(moving.class(token)),
        Stand::Modifier => Ok(moving.modifier(token)),
        Stand::Typed => moving.of_type(alloc, token),
        Stand::Callee => moving.callee(alloc, token),
        Stand::Field => moving.field(alloc, token),
        Stand::Locals => moving.locals(alloc, token),
    }
}

/// Sets what the tokens of the first `count` rows of a table become.
fn fill(
    alloc: Global,
    moving: &Moving<'_>,
    stand: Stand,
    table: u8,
    count: usize,
    map: &mut TokenMap,
) -> Result<(), NoMemory>
    requires { IsMoving moving.now }
    ensures { OnOk result (IsFilled (moved_by stand moving.now) table count map.old map.new) }
{
    for k in 0..count {
        let row = row_of(k)?;
        let token = row_token(table, row)?;
        let new = moved(alloc, moving, stand, token)?;
        map.set(token, new)?;
    }
    Ok(())
}

/// What the tokens of classes and value types in signatures become.
fn classes(alloc: Global, moving: &Moving<'_>) -> Result<TokenMap, NoMemory>
    requires { IsMoving moving.now }
    ensures { IfOk result (IsWhole (class_by moving.now)) }
{
    let rec = moving.keys.asm.scope.rec;
    let mut map = TokenMap::new(alloc);
    fill(
        alloc,
        moving,
        Stand::Class,
        table::TYPE_REF,
        rec.type_ref.len(),
        &mut map,
    )?;
    fill(
        alloc,
        moving,
        Stand::Class,
        table::TYPE_DEF,
        rec.type_def.len(),
        &mut map,
    )?;
    Ok(map)
}

/// What the tokens of modifiers in signatures become.
fn modifiers(alloc: Global, moving: &Moving<'_>) -> Result<TokenMap, NoMemory>
    requires { IsMoving moving.now }
    ensures { IfOk result (IsWhole (modifier_by moving.now)) }
{
    let rec = moving.keys.asm.scope.rec;
    let mut map = TokenMap::new(alloc);
    fill(
        alloc,
        moving,
        Stand::Modifier,
        table::TYPE_REF,
        rec.type_ref.len(),
        &mut map,
    )?;
    fill(
        alloc,
        moving,
        Stand::Modifier,
        table::TYPE_DEF,
        rec.type_def.len(),
        &mut map,
    )?;
    Ok(map)
}

/// What the tokens of types in code and rows become.
fn types(alloc: Global, moving: &Moving<'_>) -> Result<TokenMap, NoMemory>
    requires { IsMoving moving.now }
    ensures { IfOk result (IsWhole (type_by moving.now)) }
{
    let rec = moving.keys.asm.scope.rec;
    let mut map = TokenMap::new(alloc);
    fill(
        alloc,
        moving,
        Stand::Typed,
        table::TYPE_REF,
        rec.type_ref.len(),
        &mut map,
    )?;
    fill(
        alloc,
        moving,
        Stand::Typed,
        table::TYPE_DEF,
        rec.type_def.len(),
        &mut map,
    )?;
    fill(
        alloc,
        moving,
        Stand::Typed,
        table::TYPE_SPEC,
        rec.type_spec.len(),
        &mut map,
    )?;
    Ok(map)
}

/// What the tokens of methods become.
fn callees(alloc: Global, moving: &Moving<'_>) -> Result<TokenMap, NoMemory>
    requires { IsMoving moving.now }
    ensures { IfOk result (IsWhole (callee_by moving.now)) }
{
    let rec = moving.keys.asm.scope.rec;
    let mut map = TokenMap::new(alloc);
    fill(
        alloc,
        moving,
        Stand::Callee,
        table::METHOD_DEF,
        rec.method_def.len(),
        &mut map,
    )?;
    fill(
        alloc,
        moving,
        Stand::Callee,
        table::MEMBER_REF,
        rec.member_ref.len(),
        &mut map,
    )?;
    fill(
        alloc,
        moving,
        Stand::Callee,
        table::METHOD_SPEC,
        rec.method_spec.len(),
        &mut map,
    )?;
    Ok(map)
}

/// What the tokens of fields become.
fn fields(alloc: Global, moving: &Moving<'_>) -> Result<TokenMap, NoMemory>
    requires { IsMoving moving.now }
    ensures { IfOk result (IsWhole (field_by moving.now)) }
{
    let rec = moving.keys.asm.scope.rec;
    let mut map = TokenMap::new(alloc);
    fill(
        alloc,
        moving,
        Stand::Field,
        table::FIELD,
        rec.field.len(),
        &mut map,
    )?;
    fill(
        alloc,
        moving,
        Stand::Field,
        table::MEMBER_REF,
        rec.member_ref.len(),
        &mut map,
    )?;
    Ok(map)
}

/// What the tokens of locals become.
fn locals(alloc: Global, moving: &Moving<'_>) -> Result<TokenMap, NoMemory>
    requires { IsMoving moving.now }
    ensures { IfOk result (IsWhole (locals_by moving.now)) }
{
    let rec = moving.keys.asm.scope.rec;
    let mut map = TokenMap::new(alloc);
    fill(
        alloc,
        moving,
        Stand::Locals,
        table::STAND_ALONE_SIG,
        rec.stand_alone_sig.len(),
        &mut map,
    )?;
    Ok(map)
}

/// What the tokens of an assembly become. `texts` has what those of `ldstr` become. A token without a row becomes 0.
pub fn assembly_tokens(
    alloc: Global,
    moving: &Moving<'_>,
    texts: TokenMap,
) -> Result<NewTokens, NoMemory>
    requires { IsMoving moving.now }
    ensures moved { IfOk result (AreMovedTokens moving.now) }
    ensures texts { IfOk result (λ t. t.texts ≡ texts) }
{
    let classes = classes(alloc, moving)?;
    let modifiers = modifiers(alloc, moving)?;
    let types = types(alloc, moving)?;
    let callees = callees(alloc, moving)?;
    let fields = fields(alloc, moving)?;
    let locals = locals(alloc, moving)?;
    Ok(NewTokens {
        classes,
        modifiers,
        types,
        callees,
        fields,
        locals,
        texts,
    })
}
