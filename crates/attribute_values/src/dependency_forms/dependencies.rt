ghost use Rattle.std.specs.Prelude.{◌≡◌, ◌++◌, ◌∷◌, [], map, OnOk};
ghost use Rattle.attribute_values.specs.dependency_forms.Told.{dependency_told};

use crate::dependency_forms::dependency::Dependency;
use il_base::NoMemory;
use std::alloc::Global;
use std::marker::Model;

/// Dependencies in a list. Contracts see them as the rules of marking have them.
#[derive(Drop)]
pub struct Dependencies {
    listed: Vec<Dependency>,
}

impl Model for Dependencies {
    ghost use Rattle.std.specs.Prelude.{List, map};
    ghost use Rattle.rules.specs.mark_rules.Annotations as rules;
    ghost use Rattle.attribute_values.specs.dependency_forms.Told.{dependency_told};

    ghost Value = { List rules.Dependency };

    ghost view = { λ d. map dependency_told d.listed.items };
}

impl Dependencies {
    /// No dependency. It takes no memory.
    pub fn new(alloc: Global) -> Dependencies
        ensures { result ≡ [] }
    {
        Dependencies {
            listed: Vec::new(alloc),
        }
    }

    /// The dependencies, in their order.
    pub fn as_slice(&self) -> &[Dependency]
        ensures { map dependency_told result.now ≡ self.now }
    {
        self.listed.as_slice()
    }

    /// Puts a dependency at the end.
    #[tactic(auto, using(crate::proofs::lemmas::dependency_forms::Lists::one_more))]
    pub fn push(&mut self, dependency: Dependency) -> Result<(), NoMemory>
        ensures { OnOk result (self.new ≡ self.old ++ dependency_told dependency ∷ []) }
    {
        self.listed.push(dependency)?;
        Ok(())
    }
}
