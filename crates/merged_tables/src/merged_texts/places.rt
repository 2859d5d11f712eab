//! Texts that are written once.

ghost use Rattle.std.specs.Prelude.{◌≡◌, ◌+◌, ◌%◌, [], length, map, IfOk, OnOk};
ghost use Rattle.rules.specs.file_layout.Heaps.{user_item};
ghost use Rattle.rules.specs.file_layout.Interning.{added};
ghost use Rattle.merged_tables.specs.merged_texts.Texts.{text_number, texts_in, ArePlaces, numbered};

use il_base::world_model::UserText;
use il_base::{NoMemory, Seq, table};
use std::alloc::Global;
use std::collections::HashMap;

/// Texts that are written once, and the token of each by its place in `#US`.
#[derive(Drop)]
pub struct Places<'a> {
    /// In the order in which they are met.
    texts: Vec<&'a [u16]>,
    tokens: HashMap<&'a [u16], u32>,
    /// The token of the next one.
    end: u32,
}

/// The token of the text that comes after one of this token.
#[tactic(auto, using(crate::proofs::lemmas::merged_texts::ItemLemmas::item_length), unfolding(il_base::specs::blob_grammar::Numbers::shortest))]
fn after(token: u32, units: &[u16]) -> u32
    ensures { result ≡ (token + length (user_item units.now)) % 4294967296 }
{
    let size = 2 * units.len() as u64 + 1;
    let prefix = if size < 0x80 {
        1
    } else if size < 0x4000 {
        2
    } else {
        4
    };
    ((u64::from(token) + prefix + size) % 0x1_0000_0000) as u32
}

impl<'a> Places<'a> {
    pub(crate) fn new(alloc: Global) -> Places<'a>
        ensures none { texts_in result ≡ [] }
        ensures places { ArePlaces result }
    {
        Places {
            texts: Vec::new(alloc),
            tokens: HashMap::new(alloc),
            end: u32::from(table::USER_STRING) * 0x100_0000 + 1,
        }
    }

    /// The token of a text; that of the next one where it isn't there.
    pub fn token(&self, units: &[u16]) -> u32
        requires { ArePlaces self.now }
        ensures { result ≡ text_number (texts_in self.now) units.now }
    {
        match self.tokens.get(units) {
            Some(token) => *token,
            None => self.end,
        }
    }

    /// Puts a text at the end, where it isn't there.
    #[tactic(auto, unfolding(rules::specs::file_layout::Interning::added))]
    pub(crate) fn meet(&mut self, units: &'a [u16]) -> Result<(), NoMemory>
        requires { ArePlaces self.old }
        ensures texts { OnOk result (texts_in self.new ≡ added (texts_in self.old) units.now) }
        ensures places { OnOk result (ArePlaces self.new) }
    {
        if !self.tokens.contains_key(units) {
            self.tokens.insert(units, self.end)?;
            self.texts.push(units)?;
            self.end = after(self.end, units);
        }
        Ok(())
    }

    /// The texts with their tokens.
    pub fn user_texts(&self, alloc: Global) -> Result<Seq<UserText>, NoMemory>
        requires { ArePlaces self.now }
        ensures { IfOk result (λ user. user ≡ map (numbered (texts_in self.now)) (texts_in self.now)) }
    {
        let mut user = Seq::new(alloc);
        for units in &self.texts {
            let token = self.token(units);
            let text = Seq::from_slice(alloc, units)?;
            user.push(UserText { token, text })?;
        }
        Ok(user)
    }
}
