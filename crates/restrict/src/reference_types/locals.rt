//! The locals that have StandAloneSig rows (II.22.36).

ghost use Rattle.std.specs.Prelude.{◌≡◌, ◌++◌, map, IfOk, OnOk};
ghost use Rattle.rules.specs.merge_rules.Refs.{locals_of_met, locals_sigs};
ghost use Rattle.token_keys.specs.met_forms.Told.{met_told};

use il_base::{NoMemory, Seq, Sig};
use std::alloc::Global;
use token_keys::key_copies::sigs::copy_sigs;
use token_keys::met_forms::Met;
use token_keys::met_keys::lists::MetLists;

/// Puts the locals at the end that are met.
fn push_of_met(alloc: Global, met: &Met, all: &mut Vec<Seq<Sig>>) -> Result<(), NoMemory>
    ensures { OnOk result (all.new.items ≡ all.old.items ++ locals_of_met (met_told met.now)) }
{
    match met {
        Met::Type(_) => Ok(()),
        Met::Sig(_) => Ok(()),
        Met::Method(_) => Ok(()),
        Met::Field(_) => Ok(()),
        Met::Instance(_) => Ok(()),
        Met::Locals(sigs) => {
            let copy = copy_sigs(alloc, sigs.as_slice())?;
            all.push(copy)?;
            Ok(())
        }
    }
}

/// The locals that have StandAloneSig rows, each once, as first met.
#[tactic(auto, unfolding(rules::specs::merge_rules::Refs::locals_sigs))]
pub fn locals_sigs(alloc: Global, mets: &[Met]) -> Result<MetLists, NoMemory>
    ensures { IfOk result (λ lists. lists ≡ locals_sigs (map met_told mets.now)) }
{
    let mut all = Vec::new(alloc);
    for met in mets {
        push_of_met(alloc, met, &mut all)?;
    }
    let lists = MetLists::of(alloc, all)?;
    Ok(lists)
}
