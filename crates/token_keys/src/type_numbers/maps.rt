//! The numbers of types by the tokens of an assembly.

ghost use Rattle.std.specs.Prelude.{◌≡◌, length, IfOk, OnOk};
ghost use Rattle.il_base.specs.declared.table.TheConstants.{TYPE_REF, TYPE_DEF};
ghost use Rattle.token_keys.specs.signature_rows.Laws.{AreNumbers};
ghost use Rattle.mark_parts.specs.mark_tables.Assemblies.{recs_of, place_of, rec_of, IsAssembly};
ghost use Rattle.token_keys.specs.absent_types.References as refs;
ghost use Rattle.token_keys.specs.absent_types.References.{IsReferences};
ghost use Rattle.token_keys.specs.type_numbers.Filled.{number_by, IsFilled, IsWhole};

use crate::absent_types::references::References;
use crate::absent_types::rows::row_token;
use crate::type_numbers::numbers::{class_number, modifier_number};
use il_base::{NoMemory, table};
use mark_parts::mark_tables::assembly::Assembly;
use merge_plan::moved_parts::{NewTokens, TokenMap};
use std::alloc::Global;
use type_tables::member_search::counted::row_of;

/// Where a token stands in a signature (II.23.2).
#[derive(Clone, Copy)]
enum Stand {
    /// A class or a value type.
    Class,
    Modifier,
}

/// The number of the type that a token names.
fn number(
    alloc: Global,
    asm: &Assembly<'_>,
    references: &References<'_>,
    stand: Stand,
    token: u32,
) -> Result<u32, NoMemory>
    requires asm { IsAssembly asm.now }
    requires references { IsReferences references.now }
    requires same { refs.recs_of references.now ≡ recs_of asm.now }
    ensures { IfOk result (λ n. n ≡ number_by stand (recs_of asm.now) (place_of asm.now) (rec_of asm.now) token) }
{
    match stand {
        Stand::Class => class_number(alloc, asm, references, token),
        Stand::Modifier => modifier_number(alloc, asm, references, token),
    }
}

/// Sets the numbers of the tokens of the first `count` rows of a table.
fn fill(
    alloc: Global,
    asm: &Assembly<'_>,
    references: &References<'_>,
    stand: Stand,
    table: u8,
    count: usize,
    map: &mut TokenMap,
) -> Result<(), NoMemory>
    requires asm { IsAssembly asm.now }
    requires references { IsReferences references.now }
    requires same { refs.recs_of references.now ≡ recs_of asm.now }
    ensures { OnOk result (IsFilled (number_by stand (recs_of asm.now) (place_of asm.now) (rec_of asm.now)) table count map.old map.new) }
{
    for k in 0..count {
        let row = row_of(k)?;
        let token = row_token(table, row)?;
        let number = number(alloc, asm, references, stand, token)?;
        map.set(token, number)?;
    }
    Ok(())
}

/// The numbers of the tokens of all rows of TypeRef and TypeDef.
fn numbers(
    alloc: Global,
    asm: &Assembly<'_>,
    references: &References<'_>,
    stand: Stand,
) -> Result<TokenMap, NoMemory>
    requires asm { IsAssembly asm.now }
    requires references { IsReferences references.now }
    requires same { refs.recs_of references.now ≡ recs_of asm.now }
    ensures { IfOk result (IsWhole (number_by stand (recs_of asm.now) (place_of asm.now) (rec_of asm.now))) }
{
    let mut map = TokenMap::new(alloc);
    let rec = asm.scope.rec;
    fill(
        alloc,
        asm,
        references,
        stand,
        table::TYPE_REF,
        rec.type_ref.len(),
        &mut map,
    )?;
    fill(
        alloc,
        asm,
        references,
        stand,
        table::TYPE_DEF,
        rec.type_def.len(),
        &mut map,
    )?;
    Ok(map)
}

/// The numbers of the types that the tokens of an assembly name. A token of a row that isn't there has 0, and so has a TypeSpec
/// token.
pub fn type_numbers(
    alloc: Global,
    asm: &Assembly<'_>,
    references: &References<'_>,
) -> Result<NewTokens, NoMemory>
    requires asm { IsAssembly asm.now }
    requires references { IsReferences references.now }
    requires same { refs.recs_of references.now ≡ recs_of asm.now }
    ensures { IfOk result (AreNumbers (recs_of asm.now) (place_of asm.now) (rec_of asm.now)) }
{
    let classes = numbers(alloc, asm, references, Stand::Class)?;
    let modifiers = numbers(alloc, asm, references, Stand::Modifier)?;
    Ok(NewTokens {
        classes,
        modifiers,
        types: TokenMap::new(alloc),
        callees: TokenMap::new(alloc),
        fields: TokenMap::new(alloc),
        locals: TokenMap::new(alloc),
        texts: TokenMap::new(alloc),
    })
}
