//! The texts of types and members.

ghost use Rattle.std.specs.Prelude.{◌≡◌, ◌++◌, IfOk, OnOk};
ghost use Rattle.std.specs.List.{flat_map};
ghost use Rattle.rules.specs.link_rules.Types.{at_row};
ghost use Rattle.rules.specs.link_rules.Cycles.{listed};
ghost use Rattle.rules.specs.type_rules.Texts.{name_at};
ghost use Rattle.rules.specs.mark_rules.KeepList.{member_text};
ghost use Rattle.mark_parts.specs.mark_tables.Assemblies.{recs_of, place_of, IsAssembly};

use crate::chain::put_name;
use il_base::{NoMemory, Seq, Text};
use mark_parts::mark_tables::assembly::Assembly;
use std::alloc::Global;

/// Puts the name of a type of an assembly, by its row from 0, at the end.
fn put_type_text(
    alloc: Global,
    asm: &Assembly<'_>,
    row: u32,
    out: &mut Text,
) -> Result<(), NoMemory>
    requires { IsAssembly asm.now }
    ensures { OnOk result (out.new ≡ out.old ++ name_at (recs_of asm.now) (at_row (place_of asm.now) row)) }
{
    put_name(alloc, asm, row, out)?;
    Ok(())
}

/// The name of a type of an assembly, by its row from 0.
pub(crate) fn type_text(alloc: Global, asm: &Assembly<'_>, row: u32) -> Result<Text, NoMemory>
    requires { IsAssembly asm.now }
    ensures { IfOk result (λ text. text ≡ name_at (recs_of asm.now) (at_row (place_of asm.now) row)) }
{
    let mut out = Seq::new(alloc);
    put_type_text(alloc, asm, row, &mut out)?;
    Ok(out)
}

/// Puts the name of a member's type at the end, if it has one.
#[tactic(auto, using(crate::proofs::Lines::none_more))]
fn put_owner(
    alloc: Global,
    asm: &Assembly<'_>,
    owner: Option<u32>,
    out: &mut Text,
) -> Result<(), NoMemory>
    requires { IsAssembly asm.now }
    ensures { OnOk result (out.new ≡ out.old ++ flat_map (λ k. name_at (recs_of asm.now) (at_row (place_of asm.now) k)) (listed owner)) }
{
    match owner {
        Some(row) => put_type_text(alloc, asm, row, out),
        None => Ok(()),
    }
}

/// The name of a member's type, a full stop and the member's name.
#[tactic(auto, using(crate::proofs::Lines::member_put))]
pub(crate) fn member_text(
    alloc: Global,
    asm: &Assembly<'_>,
    owner: Option<u32>,
    name: &[u8],
) -> Result<Text, NoMemory>
    requires { IsAssembly asm.now }
    ensures { IfOk result (λ text. text ≡ member_text (recs_of asm.now) (place_of asm.now) owner name.now) }
{
    let mut out = Seq::new(alloc);
    put_owner(alloc, asm, owner, &mut out)?;
    out.push(b'.')?;
    out.extend_from_slice(name)?;
    Ok(out)
}
