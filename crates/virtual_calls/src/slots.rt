//! The slots of virtual methods (II.10.3, II.12.2).

ghost use Rattle.std.specs.Prelude.{◌≡◌, IfOk};
ghost use Rattle.type_tables.specs.member_search.Wanted.{look_for};
ghost use Rattle.rules.specs.type_rules.Slots.{nearest, bases_above, inherited_by, inherited, slot_of};
ghost use Rattle.type_tables.specs.Tables.{IsTables};
ghost use Rattle.virtual_calls.specs.Slots.{slot_at, AreSlots, slots_in, slots_from};

use crate::flags::{is_new_slot, is_virtual};
use crate::nearest::{base_at, method_at, nearest_match, type_count};
use il_base::world_model::{Known, MethodDefRow};
use il_base::{NoMemory, Seq};
use rules::link_rules::{MethodType, RowAt};
use std::alloc::Global;
use type_tables::member_search::counted::row_of;
use type_tables::member_search::members::{Among, Wanted};
use type_tables::methods::{method_type_at, type_of_method};
use type_tables::tables::Tables;

/// The slot of each method of each assembly; None for a method that isn't virtual.
#[derive(Drop)]
pub struct Slots {
    rows: Seq<Seq<Option<RowAt>>>,
}

/// The first method with this name and signature in the bases of a type definition, its own parameters left open.
fn nearest_above(
    alloc: Global,
    tables: &Tables<'_>,
    name: &[u8],
    wanted: &Wanted,
    owner: RowAt,
) -> Result<Option<RowAt>, NoMemory>
    requires { IsTables tables.now }
    ensures { IfOk result (λ at. at ≡ nearest (look_for tables.now.world.now.recs name.now wanted.now) (bases_above tables.now.world.now.recs owner)) }
{
    match base_at(tables, owner) {
        None => Ok(None),
        Some(base) => {
            let base = base.copy(alloc)?;
            nearest_match(alloc, tables, name, wanted, base)
        }
    }
}

/// The nearest inherited virtual method of the name and signature of a method; one with a bad signature has none.
#[tactic(auto, using(crate::proofs::Matching::nearest_virtual))]
fn inherited_by(
    alloc: Global,
    tables: &Tables<'_>,
    owner: RowAt,
    m: &MethodDefRow,
    signature: Option<Known<MethodType>>,
) -> Result<Option<RowAt>, NoMemory>
    requires { IsTables tables.now }
    ensures { IfOk result (λ at. at ≡ inherited_by tables.now.world.now.recs owner m.now signature) }
{
    match signature {
        None => Ok(None),
        Some(Known::Bad(_)) => Ok(None),
        Some(Known::Good(wanted)) => {
            let wanted = Wanted::Method(Among::Virtual, wanted);
            nearest_above(alloc, tables, m.name.as_slice(), &wanted, owner)
        }
    }
}

/// The method whose slot a virtual method that isn't newslot takes; None where it finds none.
#[tactic(auto, unfolding(rules::specs::type_rules::Slots::inherited))]
pub fn inherited(
    alloc: Global,
    tables: &Tables<'_>,
    at: RowAt,
    m: &MethodDefRow,
) -> Result<Option<RowAt>, NoMemory>
    requires { IsTables tables.now }
    ensures { IfOk result (λ above. above ≡ inherited tables.now.world.now.recs at m.now) }
{
    let Some(owner) = type_of_method(tables, at)? else {
        return Ok(None);
    };
    let signature = method_type_at(alloc, tables, at)?;
    inherited_by(alloc, tables, owner, m, signature)
}

/// The slot of a virtual method; None for a method that isn't virtual or isn't there.
fn slot_of(alloc: Global, tables: &Tables<'_>, at: RowAt) -> Result<Option<RowAt>, NoMemory>
    requires { IsTables tables.now }
    ensures { IfOk result (λ slot. slot ≡ slot_of tables.now.world.now.recs at) }
{
    let count = type_count(tables)?;
    let most = u64::from(count) + 1;
    let mut at = at;
    for _ in 0..most {
        let Some(m) = method_at(tables, at) else {
            return Ok(None);
        };
        if !is_virtual(m) {
            return Ok(None);
        }
        if is_new_slot(m) {
            return Ok(Some(at));
        }
        match inherited(alloc, tables, at, m) {
            Ok(Some(above)) => at = above,
            Ok(None) => return Ok(Some(at)),
            Err(error) => return Err(error),
        }
    }
    Ok(None)
}

/// The slots of the first methods of an assembly.
fn slots_in(
    alloc: Global,
    tables: &Tables<'_>,
    asm: u32,
    count: usize,
) -> Result<Seq<Option<RowAt>>, NoMemory>
    requires { IsTables tables.now }
    ensures { IfOk result (λ slots. slots ≡ slots_in tables.now.world.now.recs asm count) }
{
    let mut slots = Seq::new(alloc);
    for k in 0..count {
        let row = row_of(k)?;
        let slot = slot_of(alloc, tables, RowAt { asm, row })?;
        slots.push(slot)?;
    }
    Ok(slots)
}

/// The slots of the methods of each assembly.
fn slots_from(alloc: Global, tables: &Tables<'_>) -> Result<Seq<Seq<Option<RowAt>>>, NoMemory>
    requires { IsTables tables.now }
    ensures { IfOk result (λ rows. rows ≡ slots_from tables.now.world.now.recs 0 tables.now.world.now.recs) }
{
    let mut rows = Seq::new(alloc);
    for (a, rec) in tables.world.recs.as_slice().iter().enumerate() {
        let asm = row_of(a)?;
        let own = slots_in(alloc, tables, asm, rec.method_def.len())?;
        rows.push(own)?;
    }
    Ok(rows)
}

impl Slots {
    /// The slots of a world's methods.
    pub fn of(alloc: Global, tables: &Tables<'_>) -> Result<Slots, NoMemory>
        requires { IsTables tables.now }
        ensures { IfOk result (AreSlots tables.now.world.now.recs) }
    {
        let rows = slots_from(alloc, tables)?;
        Ok(Slots { rows })
    }

    /// The slot of a method; None for a method that isn't virtual or isn't there.
    pub fn at(&self, at: RowAt) -> Option<RowAt>
        ensures { result ≡ slot_at self.now at }
    {
        let rows = self.rows.get(at.asm as usize)?;
        match rows.get(at.row as usize) {
            Some(slot) => *slot,
            None => None,
        }
    }
}

/// The slot of a method; None for a method that isn't virtual or isn't there.
pub fn slot_of_method(tables: &Tables<'_>, slots: &Slots, at: RowAt) -> Option<RowAt>
    requires { AreSlots tables.now.world.now.recs slots.now }
    ensures { result ≡ slot_of tables.now.world.now.recs at }
{
    slots.at(at)
}
