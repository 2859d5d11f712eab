//! The items of a heap, each once.

ghost use Rattle.std.specs.Prelude.{◌≡◌, ℕ, List, [], ◌<◌, ◌^◌, length, map, OnOk};
ghost use Rattle.rules.specs.file_layout.Interning.{added};
ghost use Rattle.record_writer.specs.metadata_writer.Places.{index_among};

use il_base::NoMemory;
use indexmap::IndexSet;
use std::alloc::Global;
use std::marker::Model;

/// The items of a heap in the order in which they first come, each once. Contracts see the list of the items.
#[derive(Drop)]
pub struct Pool {
    set: IndexSet<Vec<u8>>,
}

impl Model for Pool {
    ghost use Rattle.std.specs.Prelude.{ℕ, List, map};

    ghost Value = { List (List ℕ) };

    ghost view = { λ p. map (λ v. v.items) p.set.keys };
}

impl Pool {
    /// No items. It takes no memory.
    pub fn new(alloc: Global) -> Pool
        ensures { result ≡ [] }
    {
        Pool {
            set: IndexSet::new(alloc),
        }
    }

    /// Puts a copy of an item at the end, where it isn't among them yet.
    #[tactic(auto, unfolding(rules::specs::file_layout::Interning::added))]
    pub fn add(&mut self, alloc: Global, item: &[u8]) -> Result<(), NoMemory>
        ensures { OnOk result (self.new ≡ added self.old item.now) }
    {
        if !self.set.contains(item) {
            self.set.insert(Vec::from_slice(alloc, item)?)?;
        }
        Ok(())
    }

    /// The place of an item, counted from 0; the number of items where it isn't among them.
    pub fn index(&self, item: &[u8]) -> usize
        ensures value { result ≡ index_among self.now item.now }
        ensures small { result < 2 ^ 63 }
    {
        let count = self.set.len();
        match self.set.get_index_of(item) {
            Some(i) => i,
            None => count,
        }
    }

    /// How many items there are.
    pub fn len(&self) -> usize
        ensures { result ≡ length self.now }
    {
        self.set.len()
    }

    /// The items.
    pub fn items(&self) -> &[Vec<u8>]
        ensures { map (λ v. v.items) result.now ≡ self.now }
    {
        self.set.as_slice()
    }
}
