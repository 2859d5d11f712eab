//! Maps from numbers to tokens.

ghost use Rattle.std.specs.Prelude.{◌≡◌, suc, IfOk, OnOk};
ghost use Rattle.reference_rows.specs.Types.{AreTokens};
ghost use Rattle.reference_rows.specs.number_tokens.Numbers.{number_token_by, IsSet, IsFilledBelow, IsFilledWith, IsWhole, AreNumberTokensBy};

use crate::tokens::TypeTokens;
use il_base::{NoMemory, TypeId};
use merge_plan::moved_parts::{NewTokens, TokenMap};
use std::alloc::Global;

/// The number of a type: one more than its place among the types of the world.
fn number_of(id: TypeId) -> Result<u32, NoMemory>
    ensures { IfOk result (λ n. n ≡ suc id.0) }
{
    id.0.checked_add(1).ok_or(NoMemory)
}

/// Sets the token of a type.
fn set_number(
    alloc: Global,
    tokens: &TypeTokens<'_>,
    id: TypeId,
    map: &mut TokenMap,
) -> Result<(), NoMemory>
    requires { AreTokens tokens.now }
    ensures { OnOk result (IsSet (number_token_by tokens.now) (suc id.0) map.old map.new) }
{
    let number = number_of(id)?;
    let token = tokens.type_token(alloc, id)?;
    map.set(number, token)?;
    Ok(())
}

/// Sets the tokens of the first `count` types of the world.
fn fill_below(
    alloc: Global,
    tokens: &TypeTokens<'_>,
    count: u32,
    map: &mut TokenMap,
) -> Result<(), NoMemory>
    requires { AreTokens tokens.now }
    ensures { OnOk result (IsFilledBelow (number_token_by tokens.now) count map.old map.new) }
{
    for k in 0..count {
        set_number(alloc, tokens, TypeId(k), map)?;
    }
    Ok(())
}

/// Sets the tokens of these types.
fn fill_with(
    alloc: Global,
    tokens: &TypeTokens<'_>,
    ids: &[TypeId],
    map: &mut TokenMap,
) -> Result<(), NoMemory>
    requires { AreTokens tokens.now }
    ensures { OnOk result (IsFilledWith (number_token_by tokens.now) ids.now map.old map.new) }
{
    for id in ids {
        set_number(alloc, tokens, *id, map)?;
    }
    Ok(())
}

/// The tokens of all types by their numbers: of those of the world, and of those that aren't there and have TypeRef rows.
fn numbered(alloc: Global, tokens: &TypeTokens<'_>) -> Result<TokenMap, NoMemory>
    requires { AreTokens tokens.now }
    ensures { IfOk result (IsWhole (number_token_by tokens.now)) }
{
    let mut map = TokenMap::new(alloc);
    let scopes = tokens.scopes;
    fill_below(alloc, tokens, scopes.references.types, &mut map)?;
    let refs = tokens.refs;
    fill_with(alloc, tokens, refs.firsts(), &mut map)?;
    Ok(map)
}

/// The tokens of types by their numbers, for classes, value types and modifiers in signatures. The number 0, and that of a type that has
/// no row, have the token 0.
pub fn number_tokens(alloc: Global, tokens: &TypeTokens<'_>) -> Result<NewTokens, NoMemory>
    requires { AreTokens tokens.now }
    ensures { IfOk result (AreNumberTokensBy tokens.now) }
{
    let classes = numbered(alloc, tokens)?;
    let modifiers = numbered(alloc, tokens)?;
    Ok(NewTokens {
        classes,
        modifiers,
        types: TokenMap::new(alloc),
        callees: TokenMap::new(alloc),
        fields: TokenMap::new(alloc),
        locals: TokenMap::new(alloc),
        texts: TokenMap::new(alloc),
    })
}
