//! The primary assembly, its first type and the entry method.

ghost use Rattle.std.specs.Prelude.{◌≡◌, ◌++◌, OnOk};
ghost use Rattle.rules.specs.mark_rules.Roots.{module_facts, entry_facts};
ghost use Rattle.mark_parts.specs.mark_tables.Assemblies.{all_of, IsMarker};
ghost use Rattle.mark_members.specs.mark_starts.First.{first_facts, method_facts};

use il_base::world_model::AsmRec;
use il_base::{AsmId, Item, NoMemory};
use mark_parts::mark_facts::facts::Facts;
use mark_parts::mark_facts::kinds::Kind;
use mark_parts::mark_tables::marker::Marker;
use rules::link_rules::RowAt;
use type_tables::methods::type_of_method;

/// Marks the first type of the primary assembly, which stands for its module (II.22.37).
#[tactic(auto, using(crate::proofs::lemmas::mark_starts::Lists::none_more))]
pub fn add_module(all: &[AsmRec], facts: &mut Facts) -> Result<(), NoMemory>
    ensures { OnOk result (facts.new ≡ facts.old ++ module_facts all.now) }
{
    let Some(rec) = all.get(0) else {
        return Ok(());
    };
    match rec.type_def.get(0) {
        Some(_module) => facts.mark_row(all, Kind::Type, RowAt { asm: 0, row: 0 }),
        None => Ok(()),
    }
}

/// Marks a method, where it is in a type's run.
#[tactic(auto, using(crate::proofs::lemmas::mark_starts::Lists::none_more))]
fn add_method(marker: &Marker<'_>, at: RowAt, facts: &mut Facts) -> Result<(), NoMemory>
    requires { IsMarker marker.now }
    ensures { OnOk result (facts.new ≡ facts.old ++ method_facts (all_of marker.now) at) }
{
    match type_of_method(&marker.tables, at) {
        Ok(Some(_owner)) => facts.mark_row(marker.tables.world.recs.as_slice(), Kind::Method, at),
        Ok(None) => Ok(()),
        Err(error) => Err(error),
    }
}

/// Marks the entry method, where a type's run has it.
#[tactic(auto, using(crate::proofs::lemmas::mark_starts::Lists::none_more))]
pub fn add_entry(
    marker: &Marker<'_>,
    entry: Option<RowAt>,
    facts: &mut Facts,
) -> Result<(), NoMemory>
    requires { IsMarker marker.now }
    ensures { OnOk result (facts.new ≡ facts.old ++ entry_facts (all_of marker.now) entry) }
{
    match entry {
        Some(at) => add_method(marker, at, facts),
        None => Ok(()),
    }
}

/// Adds the primary assembly, its first type and the entry method.
#[tactic(auto, using(crate::proofs::lemmas::mark_starts::Lists::first_then, crate::proofs::lemmas::mark_starts::Lists::two_put))]
pub fn add_first(
    marker: &Marker<'_>,
    entry: Option<RowAt>,
    facts: &mut Facts,
) -> Result<(), NoMemory>
    requires { IsMarker marker.now }
    ensures { OnOk result (facts.new ≡ facts.old ++ first_facts (all_of marker.now) entry) }
{
    facts.mark(Item::Asm(AsmId(0)))?;
    add_module(marker.tables.world.recs.as_slice(), facts)?;
    add_entry(marker, entry, facts)
}
