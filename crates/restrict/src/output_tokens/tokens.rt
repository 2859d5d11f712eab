//! What the tokens of assemblies become.

ghost use Rattle.std.specs.Prelude.{◌≡◌, Some, slice_get, IfOk};
ghost use Rattle.il_base.specs.declared.world_model.record.AsmRec.{AsmRec};
ghost use Rattle.rules.specs.merge_rules.Refs.{Output};
ghost use Rattle.merged_tables.specs.merged_texts.Texts.{ArePlaces, texts_in};
ghost use Rattle.merged_tables.specs.merged_members.Laws.{HaveTokens};
ghost use Rattle.restrict.specs.member_rows.Rows.{recs_of};
ghost use Rattle.restrict.specs.member_rows.Laws.{ArePartsOf};
ghost use Rattle.restrict.specs.output_tokens.Tokens.{AreTokenParts, AreTextsMet, TellTokens};

use crate::assembly_tokens::laws::assembly_tokens_tell;
use crate::assembly_tokens::{Moving, assembly_tokens};
use crate::member_rows::RowParts;
use il_base::NoMemory;
use merge_plan::moved_parts::NewTokens;
use merged_tables::merged_texts::laws::texts_tell;
use merged_tables::merged_texts::{Places, text_tokens};
use std::alloc::Global;
use type_tables::member_search::counted::row_of;

/// What the tokens of the assembly in a place become.
fn tokens_of(
    alloc: Global,
    parts: &RowParts<'_>,
    texts: &Places<'_>,
    place: u32,
) -> Result<NewTokens, NoMemory>
    requires parts { AreTokenParts parts.now }
    requires texts { ArePlaces texts.now }
    ensures { IfOk result (λ t. (rec : AsmRec) → slice_get (recs_of parts.now) place ≡ Some rec → TellTokens parts.now (texts_in texts.now) place rec t) }
{
    assembly_tokens_tell();
    texts_tell();
    match parts.world.at(place) {
        Some(keys) => {
            let moving = Moving {
                keys,
                tokens: parts.keys,
                numbers: parts.numbers,
            };
            let loaded = text_tokens(alloc, keys.asm.scope.rec, texts)?;
            let tokens = assembly_tokens(alloc, &moving, loaded)?;
            Ok(tokens)
        }
        None => Err(NoMemory),
    }
}

/// What the tokens of each assembly become, the core library's included. `texts` are those of the kept methods.
pub fn all_tokens(
    alloc: Global,
    parts: &RowParts<'_>,
    texts: &Places<'_>,
) -> Result<Vec<NewTokens>, NoMemory>
    requires parts { AreTokenParts parts.now }
    requires texts { ArePlaces texts.now }
    ensures { IfOk result (λ all. (o : Output) → ArePartsOf o parts.now → AreTextsMet o (texts_in texts.now) → HaveTokens o all.items) }
{
    let marker = parts.world.marker;
    let mut all = Vec::new(alloc);
    for k in 0..marker.tables.world.recs.len() {
        let place = row_of(k)?;
        let tokens = tokens_of(alloc, parts, texts, place)?;
        all.push(tokens)?;
    }
    Ok(all)
}
