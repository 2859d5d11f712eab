ghost use Rattle.std.specs.Prelude.{◌≡◌, ◌++◌, None, List, IfOk, OnOk};
ghost use Rattle.std.specs.Option.{option_map};
ghost use Rattle.descriptor_file.specs.declared.root.Root.{Root};
ghost use Rattle.rules.specs.mark_rules.Marking.{Marks};
ghost use Rattle.rules.specs.mark_rules.BadItems.{IsFirstFlaw};
ghost use Rattle.bad_items.specs.mark_flaws.Told.{flaw_told};
ghost use Rattle.marking.specs.Holding.{IsMarked};
ghost use Rattle.base_laws.specs.flaw_laws.There.{RowsThere};
ghost use Rattle.base_laws.specs.flaw_laws.Listed.{all_flaws, first_from};
ghost use Rattle.bad_items.specs.Programs.{world_in, recs_in, has, IsProgram};

use crate::entries::add_entry;
use crate::impls::add_impls;
use crate::items::add_items;
use crate::least::least_of;
use crate::mark_flaws::flaw::Flaw;
use crate::mark_flaws::flaws::Flaws;
use crate::program::Program;
use base_laws::flaw_laws::laws::flaws_told;
use il_base::NoMemory;
use rules::link_rules::RowAt;
use std::alloc::Global;

/// Puts all flaws of what is marked, and those of the entry, at the end.
#[tactic(auto, using(crate::proofs::lemmas::mark_flaws::Lists::three_put))]
fn add_all<'a>(
    alloc: Global,
    program: &Program<'a>,
    entry: Option<RowAt>,
    flaws: &mut Flaws,
) -> Result<(), NoMemory>
    requires { IsProgram program.now }
    ensures { OnOk result (flaws.new ≡ flaws.old ++ all_flaws (world_in program.now) entry (has program.now)) }
{
    add_items(alloc, program, flaws)?;
    add_impls(program, flaws)?;
    add_entry(program.marker, entry, flaws)
}

/// The least flaw of all.
fn first_of<'a>(
    alloc: Global,
    program: &Program<'a>,
    entry: Option<RowAt>,
) -> Result<Option<Flaw>, NoMemory>
    requires { IsProgram program.now }
    ensures { IfOk result (λ f. option_map flaw_told f ≡ first_from None (all_flaws (world_in program.now) entry (has program.now))) }
{
    let mut flaws = Flaws::new(alloc);
    add_all(alloc, program, entry, &mut flaws)?;
    let first = least_of(flaws.as_slice());
    Ok(first)
}

/// The first bad item of what is marked, by assembly, token, offset in bytes and kind, or None: a marked item of an input, a
/// row of MethodImpl whose class and body are marked, or an entry method that no type has. The marked set is that of an entry
/// and some elements of descriptors.
pub fn first_bad<'a>(
    alloc: Global,
    program: &Program<'a>,
    entry: Option<RowAt>,
) -> Result<Option<Flaw>, NoMemory>
    requires { IsProgram program.now }
    ensures { IfOk result (λ f. RowsThere (recs_in program.now) → (roots : List Root) → IsMarked (recs_in program.now) entry roots program.now.marked.now → IsFirstFlaw (recs_in program.now) entry (Marks (recs_in program.now) entry roots) (option_map flaw_told f)) }
{
    flaws_told();
    let first = first_of(alloc, program, entry)?;
    Ok(first)
}
