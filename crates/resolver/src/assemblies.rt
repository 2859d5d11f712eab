//! The assemblies of a world.

ghost use Rattle.std.specs.Prelude.{◌≡◌, ◌++◌, ◌∷◌, [], List, IfOk, OnOk};
ghost use Rattle.il_base.specs.declared.world_model.record.AsmRec.{AsmRec};
ghost use Rattle.rules.specs.link_rules.CoreNames.{core_with};
ghost use Rattle.rules.specs.link_rules.Linked.{assemblies};

use crate::core_names::{add_names, missing_names};
use il_base::core_table::core;
use il_base::world_model::AsmRec;
use il_base::{NoMemory, Seq};
use rules::link_rules::CoreTypeName;
use std::alloc::Global;

/// Adds types without members to the last assembly, the core library.
fn add_to_last(alloc: Global, all: &mut Seq<AsmRec>, names: &[CoreTypeName]) -> Result<(), NoMemory>
    ensures { OnOk result ((inputs : List AsmRec) → (last : AsmRec) → all.old ≡ inputs ++ last ∷ [] → all.new ≡ inputs ++ core_with last names.now ∷ []) }
{
    match all.pop() {
        None => Ok(()),
        Some(mut core) => {
            add_names(alloc, &mut core, names)?;
            all.push(core)?;
            Ok(())
        }
    }
}

/// The inputs, and after them the core library with the names that modifiers use.
#[tactic(auto, unfolding(rules::specs::link_rules::Linked::assemblies))]
pub(crate) fn assemblies(alloc: Global, inputs: Seq<AsmRec>) -> Result<Seq<AsmRec>, NoMemory>
    ensures { IfOk result (λ all. all ≡ assemblies inputs) }
{
    let mut all = inputs;
    let core = core(alloc)?;
    all.push(core)?;
    let names = missing_names(alloc, all.as_slice())?;
    add_to_last(alloc, &mut all, names.as_slice())?;
    Ok(all)
}
