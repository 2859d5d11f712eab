//! What the tokens of `ldstr` become.

ghost use Rattle.std.specs.Prelude.{◌≡◌, ℕ, IfOk};
ghost use Rattle.merge_plan.specs.moved_parts.Moves.{new_token};
ghost use Rattle.merged_tables.specs.merged_texts.Texts.{ArePlaces, texts_in, text_number, first_token, text_by};

use crate::merged_texts::places::Places;
use il_base::NoMemory;
use il_base::world_model::{AsmRec, UserText};
use merge_plan::moved_parts::TokenMap;
use std::alloc::Global;

/// What the tokens of these texts become: the first text of a token counts.
fn tokens_of(alloc: Global, texts: &[UserText], places: &Places<'_>) -> Result<TokenMap, NoMemory>
    requires { ArePlaces places.now }
    ensures { IfOk result (λ map. (q : ℕ) → new_token map q ≡ first_token (text_number (texts_in places.now)) q texts.now) }
{
    let mut map = TokenMap::new(alloc);
    for n in (0..texts.len()).rev() {
        let text = &texts[n];
        map.set(text.token, places.token(text.text.as_slice()))?;
    }
    Ok(map)
}

/// What the tokens of `ldstr` of an assembly become; 0 for one that has no text.
pub fn text_tokens(alloc: Global, rec: &AsmRec, places: &Places<'_>) -> Result<TokenMap, NoMemory>
    requires { ArePlaces places.now }
    ensures { IfOk result (λ map. (q : ℕ) → new_token map q ≡ text_by (texts_in places.now) rec.now q) }
{
    let map = tokens_of(alloc, rec.user.as_slice(), places)?;
    Ok(map)
}
