//! The signature and the locals of a method.

ghost use Rattle.std.specs.Prelude.{◌≡◌, ◌++◌, OnOk};
ghost use Rattle.std.specs.List.{flat_map};
ghost use Rattle.std.specs.Option.{option_copied};
ghost use Rattle.rules.specs.link_rules.Types.{at_row};
ghost use Rattle.rules.specs.mark_rules.Bodies.{locals_parts, body_of};
ghost use Rattle.mark_parts.specs.Items.{locals_row};
ghost use Rattle.mark_parts.specs.mark_tables.Assemblies.{recs_of, place_of, rec_of, all_of, IsAssembly, IsMarker};
ghost use Rattle.rules.specs.site_rules.Bodies.{head_parts_of, head_parts};
ghost use Rattle.requirements.specs.item_sites.Heads.{body_locals, row_parts};

use il_base::world_model::{
    AsmRec, BadKind, Known, MethodDefRow, StandAloneSigRow, index_in, token_of,
};
use il_base::{NoMemory, table};
use mark_parts::mark_facts::parts::Parts;
use mark_parts::mark_tables::assembly::Assembly;
use mark_parts::mark_tables::marker::Marker;
use mark_parts::sigs::{add_method_sig, add_sigs};
use rules::link_rules::RowAt;
use std::alloc::Global;

/// The row of StandAloneSig that a token names.
fn locals_row(rec: &AsmRec, token: u32) -> Option<&StandAloneSigRow>
    ensures { option_copied result ≡ locals_row rec.now token }
{
    let k = index_in(table::STAND_ALONE_SIG, token)?;
    rec.stand_alone_sig.get(k as usize)
}

/// Puts the types of a body's locals at the end.
#[tactic(auto, using(crate::proofs::lemmas::item_sites::Lists::none_more))]
fn add_locals(
    alloc: Global,
    asm: &Assembly<'_>,
    row: u32,
    token: u32,
    parts: &mut Parts,
) -> Result<(), NoMemory>
    requires { IsAssembly asm.now }
    ensures { OnOk result (parts.new ≡ parts.old ++ locals_parts (recs_of asm.now) (place_of asm.now) (rec_of asm.now) row token) }
{
    if token == 0 {
        return Ok(());
    }
    match locals_row(asm.scope.rec, token) {
        None => parts.push_bad(row, BadKind::Unresolved),
        Some(locals) => add_sigs(alloc, asm, row, &locals.signature, parts),
    }
}

/// Puts the types of the locals of a method at the end; a method without a body that has a reading has none.
#[tactic(auto, using(crate::proofs::lemmas::item_sites::Lists::none_more))]
fn add_body_locals(
    alloc: Global,
    asm: &Assembly<'_>,
    row: u32,
    m: &MethodDefRow,
    parts: &mut Parts,
) -> Result<(), NoMemory>
    requires { IsAssembly asm.now }
    ensures { OnOk result (parts.new ≡ parts.old ++ body_locals (recs_of asm.now) (place_of asm.now) (rec_of asm.now) row m.now) }
{
    match &m.body {
        None => Ok(()),
        Some(Known::Bad(_)) => Ok(()),
        Some(Known::Good(body)) => add_locals(alloc, asm, row, body.locals, parts),
    }
}

#[tactic(auto, using(crate::proofs::lemmas::item_sites::Lists::two_put))]
fn add_row(
    alloc: Global,
    asm: &Assembly<'_>,
    row: u32,
    m: &MethodDefRow,
    parts: &mut Parts,
) -> Result<(), NoMemory>
    requires { IsAssembly asm.now }
    ensures { OnOk result (parts.new ≡ parts.old ++ row_parts (recs_of asm.now) (place_of asm.now) (rec_of asm.now) row m.now) }
{
    add_method_sig(alloc, asm, row, &m.signature, parts)?;
    add_body_locals(alloc, asm, row, m, parts)
}

/// Puts the parts of a method's signature and of its locals at the end.
#[tactic(auto, unfolding(rules::specs::site_rules::Bodies::head_parts), using(crate::proofs::lemmas::item_sites::Lists::none_more))]
pub fn add_head(
    alloc: Global,
    marker: &Marker<'_>,
    at: RowAt,
    parts: &mut Parts,
) -> Result<(), NoMemory>
    requires { IsMarker marker.now }
    ensures { OnOk result (parts.new ≡ parts.old ++ head_parts (all_of marker.now) at) }
{
    let Some(asm) = marker.assembly_at(at.asm) else {
        return Ok(());
    };
    let Some(m) = asm.scope.rec.method_def.get(at.row as usize) else {
        return Ok(());
    };
    let row = token_of(table::METHOD_DEF, at.row as usize)?;
    add_row(alloc, &asm, row, m, parts)
}
