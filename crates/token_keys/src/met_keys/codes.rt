//! Codes that were met.

ghost use Rattle.std.specs.Prelude.{◌≡◌, [], bytes_eq, OnOk};
ghost use Rattle.std.specs.List.{list_any, position};
ghost use Rattle.rules.specs.merge_rules.Refs.{met_once};

use il_base::NoMemory;
use indexmap::IndexSet;
use std::alloc::Global;
use std::marker::Model;

/// Codes in the order in which they were first met, each once. Contracts see their list.
#[derive(Drop)]
pub struct Met {
    codes: IndexSet<Vec<u32>>,
}

impl Model for Met {
    ghost use Rattle.std.specs.Prelude.{ℕ, List, map};

    ghost Value = { List (List ℕ) };

    ghost view = { λ m. map (λ v. v.items) m.codes.keys };
}

impl Met {
    /// No codes. It takes no memory.
    pub fn new(alloc: Global) -> Met
        ensures { result ≡ [] }
    {
        Met {
            codes: IndexSet::new(alloc),
        }
    }

    /// Whether a code was met.
    pub fn has(&self, code: &[u32]) -> bool
        ensures { result ≡ list_any (bytes_eq code.now) self.now }
    {
        self.codes.contains(code)
    }

    /// Puts a code at the end, where it wasn't met yet.
    pub fn meet(&mut self, code: Vec<u32>) -> Result<(), NoMemory>
        ensures { OnOk result (self.new ≡ met_once bytes_eq self.old code.items) }
    {
        self.codes.insert(code)?;
        Ok(())
    }

    /// Which of the codes this is, counted from 0.
    pub fn place(&self, code: &[u32]) -> Option<usize>
        ensures { result ≡ position (bytes_eq code.now) self.now }
    {
        self.codes.get_index_of(code)
    }
}
