//! Items by their rows, and rows by their items.

ghost use Rattle.std.specs.Prelude.{◌≡◌, ◌++◌, ◌∷◌, [], ◌+◌, IfOk, OnOk};
ghost use Rattle.il_base.specs.world_model.Worlds.{rows_before, type_id};
ghost use Rattle.rules.specs.link_rules.Members.{home_from};
ghost use Rattle.rules.specs.mark_rules.Facts.Fact.{marked, instantiated};
ghost use Rattle.rules.specs.mark_rules.Places.{row_of, is_core};
ghost use Rattle.mark_parts.specs.mark_facts.Kinds.{count_in, item_at};

use crate::mark_facts::facts::Facts;
use crate::mark_facts::kinds::{Kind, count_in, item_numbered};
use il_base::world_model::{AsmRec, type_id};
use il_base::{AsmId, Item, NoMemory, TypeId};
use rules::link_rules::RowAt;
use type_tables::member_search::counted::sum;

/// How many rows of a kind the first `a` assemblies have.
#[tactic(auto, unfolding(il_base::specs::world_model::Worlds::rows_before))]
pub fn rows_before(all: &[AsmRec], kind: Kind, a: usize) -> Result<u32, NoMemory>
    ensures { IfOk result (λ n. n ≡ rows_before (count_in kind) all.now a) }
{
    let mut before = 0u32;
    for (i, rec) in all.iter().enumerate() {
        if i == a {
            break;
        }
        before = sum(before, count_in(rec, kind))?;
    }
    Ok(before)
}

/// The item of a row.
pub fn item_at(all: &[AsmRec], kind: Kind, at: RowAt) -> Result<Item, NoMemory>
    ensures { IfOk result (λ item. item ≡ item_at all.now kind at) }
{
    let before = rows_before(all, kind, at.asm as usize)?;
    let number = sum(before, at.row as usize)?;
    Ok(item_numbered(kind, number))
}

/// The type in a row.
pub fn type_at(all: &[AsmRec], at: RowAt) -> Result<TypeId, NoMemory>
    ensures { IfOk result (λ id. id ≡ type_id all.now at.asm at.row) }
{
    match type_id(all, at.asm as usize, at.row as usize) {
        Some(id) => Ok(id),
        None => Err(NoMemory),
    }
}

/// The assembly and the row of a kind's item by its number.
#[tactic(auto, unfolding(rules::specs::link_rules::Members::home_from))]
fn home_of(all: &[AsmRec], kind: Kind, number: u32) -> Result<Option<RowAt>, NoMemory>
    ensures { IfOk result (λ at. at ≡ home_from (count_in kind) 0 all.now number) }
{
    let mut left = number;
    for (a, rec) in all.iter().enumerate() {
        let count = count_in(rec, kind);
        if (left as usize) < count {
            let Ok(asm) = u32::try_from(a) else {
                return Err(NoMemory);
            };
            return Ok(Some(RowAt { asm, row: left }));
        }
        left -= count as u32;
    }
    Ok(None)
}

/// An assembly as a row: itself, and row 0.
#[tactic(auto, unfolding(rules::specs::mark_rules::Places::row_of))]
fn assembly_row(all: &[AsmRec], id: AsmId) -> Option<RowAt>
    ensures { result ≡ row_of all.now (Item.Asm id) }
{
    match all.get(id.0 as usize) {
        Some(_rec) => Some(RowAt { asm: id.0, row: 0 }),
        None => None,
    }
}

/// The assembly and the row of an item, both from 0; None where there is no such row.
#[tactic(auto, unfolding(rules::specs::mark_rules::Places::row_of))]
pub fn row_of(all: &[AsmRec], item: Item) -> Result<Option<RowAt>, NoMemory>
    ensures { IfOk result (λ at. at ≡ row_of all.now item) }
{
    match item {
        Item::Asm(id) => Ok(assembly_row(all, id)),
        Item::Typ(id) => home_of(all, Kind::Type, id.0),
        Item::Method(id) => home_of(all, Kind::Method, id.0),
        Item::Field(id) => home_of(all, Kind::Field, id.0),
        Item::Prop(id) => home_of(all, Kind::Property, id.0),
        Item::Event(id) => home_of(all, Kind::Event, id.0),
        Item::Impl(id) => home_of(all, Kind::Interface, id.0),
    }
}

/// Whether an item is the core library's.
#[tactic(auto, unfolding(rules::specs::mark_rules::Places::is_core))]
pub fn is_core(all: &[AsmRec], item: Item) -> Result<bool, NoMemory>
    ensures { IfOk result (λ is. is ≡ is_core all.now item) }
{
    match row_of(all, item) {
        Ok(Some(at)) => Ok(at.asm as usize + 1 == all.len()),
        Ok(None) => Ok(false),
        Err(error) => Err(error),
    }
}

impl Facts {
    /// Adds the fact that the item of a row is marked.
    pub fn mark_row(&mut self, all: &[AsmRec], kind: Kind, at: RowAt) -> Result<(), NoMemory>
        ensures { OnOk result (self.new ≡ self.old ++ marked (item_at all.now kind at) ∷ []) }
    {
        let item = item_at(all, kind, at)?;
        self.mark(item)
    }

    /// Adds the fact that the type of a row is instantiated.
    pub fn instantiate_row(&mut self, all: &[AsmRec], at: RowAt) -> Result<(), NoMemory>
        ensures { OnOk result (self.new ≡ self.old ++ instantiated (type_id all.now at.asm at.row) ∷ []) }
    {
        let id = type_at(all, at)?;
        self.instantiate(id)
    }
}
