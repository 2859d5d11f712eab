//! The homes of the items of a world: assembly and token.

ghost use Rattle.std.specs.Prelude.{◌≡◌, ◌++◌, length, map, OnOk, IfOk};
ghost use Rattle.std.specs.List.{range_with_len};
ghost use Rattle.rules.specs.link_rules.Linked.{home, homes_from, homes};
ghost use Rattle.resolver.specs.Kinds.{count_in, item_of, table_of};

use crate::kind::{Kind, count_in, item_of, table_of};
use il_base::world_model::{AsmRec, Home, token_of};
use il_base::{AsmId, NoMemory, Seq};
use std::alloc::Global;

/// Adds the homes of the items of one kind in one assembly; the assemblies before it have `before` items of the kind.
fn add_rows(
    homes: &mut Seq<Home>,
    kind: Kind,
    asm: u32,
    before: u32,
    count: u32,
) -> Result<(), NoMemory>
    ensures { OnOk result (homes.new ≡ homes.old ++ map (home (item_of kind) asm (table_of kind) before) (range_with_len 0 count)) }
{
    for row in 0..count {
        let Some(id) = before.checked_add(row) else {
            return Err(NoMemory);
        };
        homes.push(Home {
            item: item_of(kind, id),
            asm: AsmId(asm),
            token: token_of(table_of(kind), row as usize)?,
        })?;
    }
    Ok(())
}

/// Adds the homes of the items of one kind, assembly by assembly.
fn add_kind(homes: &mut Seq<Home>, kind: Kind, all: &[AsmRec]) -> Result<(), NoMemory>
    ensures { OnOk result (homes.new ≡ homes.old ++ homes_from (count_in kind) (item_of kind) (table_of kind) 0 0 all.now) }
{
    let mut asm = 0u32;
    let mut before = 0u32;
    for rec in all {
        let Ok(count) = u32::try_from(count_in(kind, rec)) else {
            return Err(NoMemory);
        };
        add_rows(homes, kind, asm, before, count)?;
        match (asm.checked_add(1), before.checked_add(count)) {
            (Some(next), Some(behind)) => {
                asm = next;
                before = behind;
            }
            _ => return Err(NoMemory),
        }
    }
    Ok(())
}

/// The home of each item of these assemblies: the kinds one after the other, in each the assemblies in order.
#[tactic(auto, unfolding(rules::specs::link_rules::Linked::homes))]
pub(crate) fn homes(alloc: Global, all: &[AsmRec]) -> Result<Seq<Home>, NoMemory>
    ensures { IfOk result (λ hs. hs ≡ homes all.now) }
{
    let mut homes = Seq::new(alloc);
    add_kind(&mut homes, Kind::Asm, all)?;
    add_kind(&mut homes, Kind::Typ, all)?;
    add_kind(&mut homes, Kind::Method, all)?;
    add_kind(&mut homes, Kind::Field, all)?;
    add_kind(&mut homes, Kind::Prop, all)?;
    add_kind(&mut homes, Kind::Event, all)?;
    add_kind(&mut homes, Kind::Impl, all)?;
    Ok(homes)
}
