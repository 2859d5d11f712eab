//! A flag for each item of a kind, counted over all assemblies.

ghost use Rattle.std.specs.Prelude.{◌≡◌, length, IfOk};
ghost use Rattle.il_base.specs.declared.ids.Item.TheVariants as item;
ghost use Rattle.rules.specs.mark_rules.Facts.Fact.{marked, shown};
ghost use Rattle.mark_parts.specs.mark_facts.Kinds.{count_in, item_numbered};
ghost use Rattle.base_laws.specs.world_laws.Homes.{rows_of};
ghost use Rattle.marking.specs.Holding.{holds};
ghost use Rattle.kept_marks.specs.Flags.{HasFlags};

use il_base::world_model::AsmRec;
use il_base::{AsmId, Bits, Item, NoMemory, Seq, TypeId};
use mark_parts::mark_facts::kinds::{Kind, item_numbered};
use mark_parts::mark_facts::rows::rows_before;
use marking::Marked;
use std::alloc::Global;
use type_tables::member_search::counted::row_of;

/// How many items of a kind there are.
fn count_of(all: &[AsmRec], kind: Kind) -> Result<u32, NoMemory>
    ensures { IfOk result (λ n. n ≡ rows_of (count_in kind) all.now) }
{
    rows_before(all, kind, all.len())
}

/// Which assemblies are marked.
pub fn assembly_flags(alloc: Global, all: &[AsmRec], set: &Marked) -> Result<Bits, NoMemory>
    ensures { IfOk result (HasFlags (length all.now) (λ n. holds set.now (marked (item.Asm (record { 0 = n }))))) }
{
    let count = row_of(all.len())?;
    let mut flags = Seq::new(alloc);
    for id in 0..count {
        flags.push(set.has(Item::Asm(AsmId(id))))?;
    }
    Ok(Bits { flags })
}

/// Which items of a kind are marked.
pub fn item_flags(alloc: Global, all: &[AsmRec], kind: Kind, set: &Marked) -> Result<Bits, NoMemory>
    ensures { IfOk result (HasFlags (rows_of (count_in kind) all.now) (λ n. holds set.now (marked (item_numbered kind n)))) }
{
    let count = count_of(all, kind)?;
    let mut flags = Seq::new(alloc);
    for id in 0..count {
        flags.push(set.has(item_numbered(kind, id)))?;
    }
    Ok(Bits { flags })
}

/// Which types are shown.
pub fn shown_flags(alloc: Global, all: &[AsmRec], set: &Marked) -> Result<Bits, NoMemory>
    ensures { IfOk result (HasFlags (rows_of (count_in Kind.Type) all.now) (λ n. holds set.now (shown (record { 0 = n })))) }
{
    let count = count_of(all, Kind::Type)?;
    let mut flags = Seq::new(alloc);
    for id in 0..count {
        flags.push(set.shown(TypeId(id)))?;
    }
    Ok(Bits { flags })
}
