//! Full names that are taken, and the search for a free one.

ghost use Rattle.std.specs.Prelude.{◌≡◌, ℕ, List, ◌||◌, false, IfOk, OnOk};
ghost use Rattle.il_base.specs.world_model.Core.{same_name};
ghost use Rattle.rules.specs.type_rules.Texts.{full_name_of};
ghost use Rattle.rules.specs.merge_rules.Names.{free_from, numbered_name, renamed};
ghost use Rattle.merge_plan.specs.Taken.{has_in};

use crate::full_names::{assembly_name, full_name_of, name_of};
use il_base::world_model::AsmRec;
use il_base::{NoMemory, Seq, Text};
use indexmap::IndexSet;
use rules::link_rules::RowAt;
use std::alloc::Global;

/// Full names, each once.
#[derive(Drop)]
pub(crate) struct Taken {
    names: IndexSet<Vec<u8>>,
}

impl Taken {
    /// No names. It takes no memory.
    pub(crate) fn new(alloc: Global) -> Taken
        ensures { (q : List ℕ) → has_in result q ≡ false }
    {
        Taken {
            names: IndexSet::new(alloc),
        }
    }

    /// Whether a name is among them.
    fn has(&self, name: &[u8]) -> bool
        ensures { result ≡ has_in self.now name.now }
    {
        self.names.contains(name)
    }

    /// Adds a name.
    pub(crate) fn add(&mut self, name: Vec<u8>) -> Result<(), NoMemory>
        ensures { OnOk result ((q : List ℕ) → has_in self.new q ≡ (has_in self.old q || same_name name.items q)) }
    {
        self.names.insert(name)?;
        Ok(())
    }
}

/// A name with a number at its end; with 0 the name alone.
fn numbered_name(alloc: Global, name: &[u8], k: usize) -> Result<Text, NoMemory>
    ensures { IfOk result (λ text. text ≡ numbered_name name.now k) }
{
    let mut text = Seq::from_slice(alloc, name)?;
    if k != 0 {
        let number = k.to_string(alloc)?;
        text.extend_from_slice(number.as_bytes())?;
    }
    Ok(text)
}

/// Whether a name is taken in a namespace.
fn is_taken(alloc: Global, taken: &Taken, namespace: &[u8], name: &[u8]) -> Result<bool, NoMemory>
    ensures { IfOk result (λ b. b ≡ has_in taken.now (full_name_of namespace.now name.now)) }
{
    let full = full_name_of(alloc, namespace, name)?;
    Ok(taken.has(full.as_slice()))
}

/// A name with the first number that makes it free in a namespace, at most `most`.
pub(crate) fn free_name(
    alloc: Global,
    taken: &Taken,
    namespace: &[u8],
    name: &[u8],
    most: usize,
) -> Result<Text, NoMemory>
    ensures { IfOk result (λ text. text ≡ free_from (λ n. has_in taken.now (full_name_of namespace.now n)) name.now 0 most) }
{
    for k in 0..most {
        let numbered = numbered_name(alloc, name, k)?;
        let is_there = is_taken(alloc, taken, namespace, numbered.as_slice())?;
        if !is_there {
            return Ok(numbered);
        }
    }
    numbered_name(alloc, name, most)
}

/// The name of a type after the name of its assembly in angle brackets.
pub(crate) fn renamed(alloc: Global, recs: &[AsmRec], at: RowAt) -> Result<Text, NoMemory>
    ensures { IfOk result (λ name. name ≡ renamed recs.now at) }
{
    let mut name = Seq::new(alloc);
    name.push(b'<')?;
    name.extend_from_slice(assembly_name(recs, at))?;
    name.push(b'>')?;
    name.extend_from_slice(name_of(recs, at))?;
    Ok(name)
}
