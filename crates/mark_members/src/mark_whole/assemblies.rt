//! All types of an assembly, with all their members.

ghost use Rattle.std.specs.Prelude.{◌≡◌, ◌++◌, ◌∷◌, OnOk};
ghost use Rattle.rules.specs.link_rules.Types.{at_row};
ghost use Rattle.rules.specs.type_rules.Rows.{is_module_type, each_row};
ghost use Rattle.rules.specs.mark_rules.Places.{marks_type};
ghost use Rattle.rules.specs.mark_rules.Roots.{all_members, whole_assembly};
ghost use Rattle.mark_parts.specs.mark_tables.Assemblies.{all_of, IsMarker};
ghost use Rattle.mark_members.specs.mark_whole.Assemblies.{whole_type};

use crate::mark_whole::members::add_members;
use il_base::NoMemory;
use il_base::world_model::TypeDefRow;
use mark_parts::mark_facts::facts::Facts;
use mark_parts::mark_facts::kinds::Kind;
use mark_parts::mark_tables::marker::Marker;
use rules::link_rules::RowAt;
use std::alloc::Global;
use type_tables::member_search::counted::row_of;

/// Whether a row of TypeDef, from 0, is `<Module>` (II.22.37).
pub fn is_module_type(k: usize, t: &TypeDefRow) -> bool
    ensures { result ≡ is_module_type k t.now }
{
    k == 0 && t.name.as_slice() == b"<Module>".as_slice() && t.namespace.is_empty()
}

/// Marks a type, and all its members.
#[tactic(auto, using(crate::proofs::lemmas::mark_whole::Lists::first_then))]
fn add_whole(
    alloc: Global,
    marker: &Marker<'_>,
    at: RowAt,
    facts: &mut Facts,
) -> Result<(), NoMemory>
    requires { IsMarker marker.now }
    ensures { OnOk result (facts.new ≡ facts.old ++ marks_type (all_of marker.now) at ∷ all_members (all_of marker.now) at) }
{
    facts.mark_row(marker.tables.world.recs.as_slice(), Kind::Type, at)?;
    add_members(alloc, marker, at, facts)
}

/// Marks a type in a row of an assembly, from 0, and all its members; `<Module>` isn't marked.
#[tactic(auto, using(crate::proofs::lemmas::mark_whole::Lists::none_more))]
fn add_type(
    alloc: Global,
    marker: &Marker<'_>,
    asm: u32,
    k: usize,
    t: &TypeDefRow,
    facts: &mut Facts,
) -> Result<(), NoMemory>
    requires { IsMarker marker.now }
    ensures { OnOk result (facts.new ≡ facts.old ++ whole_type (all_of marker.now) asm k t.now) }
{
    let is_module = is_module_type(k, t);
    if is_module {
        return Ok(());
    }
    let row = row_of(k)?;
    add_whole(alloc, marker, RowAt { asm, row }, facts)
}

/// Marks the types of an assembly, and all their members.
fn add_types(
    alloc: Global,
    marker: &Marker<'_>,
    asm: u32,
    types: &[TypeDefRow],
    facts: &mut Facts,
) -> Result<(), NoMemory>
    requires { IsMarker marker.now }
    ensures { OnOk result (facts.new ≡ facts.old ++ each_row (whole_type (all_of marker.now) asm) types.now) }
{
    for (k, t) in types.iter().enumerate() {
        add_type(alloc, marker, asm, k, t, facts)?;
    }
    Ok(())
}

/// Adds every type of an assembly but `<Module>`, with all its members.
#[tactic(auto, using(crate::proofs::lemmas::mark_whole::Lists::none_more))]
pub fn add_assembly(
    alloc: Global,
    marker: &Marker<'_>,
    asm: u32,
    facts: &mut Facts,
) -> Result<(), NoMemory>
    requires { IsMarker marker.now }
    ensures { OnOk result (facts.new ≡ facts.old ++ whole_assembly (all_of marker.now) asm) }
{
    let Some(here) = marker.assembly_at(asm) else {
        return Ok(());
    };
    add_types(
        alloc,
        marker,
        asm,
        here.scope.rec.type_def.as_slice(),
        facts,
    )
}
