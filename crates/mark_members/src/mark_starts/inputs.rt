//! The assemblies that descriptors name.

ghost use Rattle.std.specs.Prelude.{◌≡◌, ◌++◌, position, IfOk, OnOk};
ghost use Rattle.std.specs.List.{flat_map};
ghost use Rattle.rules.specs.link_rules.Types.{is_called};
ghost use Rattle.rules.specs.link_rules.Cycles.{listed};
ghost use Rattle.rules.specs.mark_rules.Roots.{input_named, whole_assembly};
ghost use Rattle.mark_parts.specs.mark_tables.Assemblies.{all_of, IsMarker};

use crate::mark_whole::assemblies::add_assembly;
use il_base::NoMemory;
use il_base::world_model::AsmRec;
use mark_parts::mark_facts::facts::Facts;
use mark_parts::mark_tables::marker::Marker;
use std::alloc::Global;
use type_tables::member_search::counted::row_of;

/// Whether an assembly has this simple name.
fn is_called(name: &[u8], rec: &AsmRec) -> bool
    ensures { result ≡ is_called name.now rec.now }
{
    match rec.assembly.as_slice() {
        [] => false,
        [row, ..] => row.name.as_slice() == name,
    }
}

/// The place, from 0, of the first assembly of this name.
fn first_called(all: &[AsmRec], name: &[u8]) -> Option<usize>
    ensures { result ≡ position (is_called name.now) all.now }
{
    all.iter().position(|rec| is_called(name, rec))
}

/// The place, from 0, of the first input of a simple name; the core library is none.
#[tactic(auto, unfolding(rules::specs::mark_rules::Roots::input_named))]
pub fn input_named(all: &[AsmRec], name: &[u8]) -> Result<Option<u32>, NoMemory>
    ensures { IfOk result (λ at. at ≡ input_named all.now name.now) }
{
    let Some(at) = first_called(all, name) else {
        return Ok(None);
    };
    let asm = row_of(at)?;
    if asm as usize + 1 == all.len() {
        return Ok(None);
    }
    Ok(Some(asm))
}

/// Adds the facts that a descriptor gives which names an assembly without a type: all its types but `<Module>` are kept, with all
/// their members.
#[tactic(auto, using(crate::proofs::lemmas::mark_starts::Lists::none_more))]
pub fn add_input(
    alloc: Global,
    marker: &Marker<'_>,
    name: &[u8],
    facts: &mut Facts,
) -> Result<(), NoMemory>
    requires { IsMarker marker.now }
    ensures { OnOk result (facts.new ≡ facts.old ++ flat_map (whole_assembly (all_of marker.now)) (listed (input_named (all_of marker.now) name.now))) }
{
    match input_named(marker.tables.world.recs.as_slice(), name) {
        Ok(Some(asm)) => add_assembly(alloc, marker, asm, facts),
        Ok(None) => Ok(()),
        Err(error) => Err(error),
    }
}
