ghost use Rattle.std.specs.Prelude.{◌≡◌, ◌++◌, ◌∷◌, [], map, OnOk};
ghost use Rattle.rules.specs.mark_rules.Facts.Fact.{marked, instantiated, shown};
ghost use Rattle.mark_parts.specs.mark_facts.Told.{fact_told};

use crate::mark_facts::fact::Fact;
use il_base::{Item, NoMemory, TypeId};
use std::alloc::Global;
use std::marker::Model;

/// Facts in a list. Contracts see them as the rules of marking have them.
#[derive(Drop)]
pub struct Facts {
    listed: Vec<Fact>,
}

impl Model for Facts {
    ghost use Rattle.std.specs.Prelude.{List, map};
    ghost use Rattle.rules.specs.mark_rules.Facts as rules;
    ghost use Rattle.mark_parts.specs.mark_facts.Told.{fact_told};

    ghost Value = { List rules.Fact };

    ghost view = { λ f. map fact_told f.listed.items };
}

impl Facts {
    /// No fact. It takes no memory.
    pub fn new(alloc: Global) -> Facts
        ensures { result ≡ [] }
    {
        Facts {
            listed: Vec::new(alloc),
        }
    }

    /// The facts, in their order.
    pub fn as_slice(&self) -> &[Fact]
        ensures { map fact_told result.now ≡ self.now }
    {
        self.listed.as_slice()
    }

    /// Adds a fact.
    #[tactic(auto, using(crate::proofs::lemmas::mark_facts::Lists::one_more))]
    pub fn push(&mut self, fact: Fact) -> Result<(), NoMemory>
        ensures { OnOk result (self.new ≡ self.old ++ fact_told fact ∷ []) }
    {
        self.listed.push(fact)?;
        Ok(())
    }

    /// Adds the fact that an item is marked.
    pub fn mark(&mut self, item: Item) -> Result<(), NoMemory>
        ensures { OnOk result (self.new ≡ self.old ++ marked item ∷ []) }
    {
        self.push(Fact::Marked(item))
    }

    /// Adds the fact that a type is instantiated.
    pub fn instantiate(&mut self, id: TypeId) -> Result<(), NoMemory>
        ensures { OnOk result (self.new ≡ self.old ++ instantiated id ∷ []) }
    {
        self.push(Fact::Instantiated(id))
    }

    /// Adds the fact that a type is shown.
    pub fn show(&mut self, id: TypeId) -> Result<(), NoMemory>
        ensures { OnOk result (self.new ≡ self.old ++ shown id ∷ []) }
    {
        self.push(Fact::Shown(id))
    }
}
