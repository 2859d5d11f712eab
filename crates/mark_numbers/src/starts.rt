//! Where each kind of item and of fact begins.

ghost use Rattle.std.specs.Prelude.{◌≡◌, ◌+◌, IfOk};
ghost use Rattle.base_laws.specs.world_laws.Homes.{before_types, before_methods, before_fields, before_props, before_events, before_impls, item_count, rows_of, place_of};
ghost use Rattle.mark_parts.specs.mark_facts.Kinds.{count_in};
ghost use Rattle.mark_numbers.specs.Numbers.{before_shown, before_reflected, universe};
ghost use Rattle.mark_numbers.specs.Starts.{AreStarts};

use il_base::world_model::AsmRec;
use il_base::{Item, NoMemory};
use mark_parts::mark_facts::kinds::Kind;
use mark_parts::mark_facts::rows::rows_before;
use type_tables::member_search::counted::{row_of, sum};

/// The first number of each kind of item, and of each kind of fact after the marked items.
#[derive(Clone, Copy, Debug, PartialEq, Eq)]
pub struct Starts {
    pub types: u32,
    pub methods: u32,
    pub fields: u32,
    pub properties: u32,
    pub events: u32,
    pub interfaces: u32,
    pub instantiated: u32,
    pub shown: u32,
    pub reflected: u32,
    /// How many numbers there are.
    pub universe: u32,
}

/// How many rows of a kind all assemblies have, after so many others.
fn after(all: &[AsmRec], start: u32, kind: Kind) -> Result<u32, NoMemory>
    ensures { IfOk result (λ n. n ≡ start + rows_of (count_in kind) all.now) }
{
    let rows = rows_before(all, kind, all.len())?;
    let end = sum(start, rows as usize)?;
    Ok(end)
}

/// Where the kinds of items begin, up to properties.
fn members(all: &[AsmRec]) -> Result<(u32, u32, u32, u32), NoMemory>
    ensures { IfOk result (λ s. (s.0 ≡ before_types all.now) × (s.1 ≡ before_methods all.now) × (s.2 ≡ before_fields all.now) × (s.3 ≡ before_props all.now)) }
{
    let types = row_of(all.len())?;
    let methods = after(all, types, Kind::Type)?;
    let fields = after(all, methods, Kind::Method)?;
    let properties = after(all, fields, Kind::Field)?;
    Ok((types, methods, fields, properties))
}

/// Where the kinds of items after properties begin, and how many items there are.
fn others(all: &[AsmRec], properties: u32) -> Result<(u32, u32, u32), NoMemory>
    requires { properties ≡ before_props all.now }
    ensures { IfOk result (λ s. (s.0 ≡ before_events all.now) × (s.1 ≡ before_impls all.now) × (s.2 ≡ item_count all.now)) }
{
    let events = after(all, properties, Kind::Property)?;
    let interfaces = after(all, events, Kind::Event)?;
    let items = after(all, interfaces, Kind::Interface)?;
    Ok((events, interfaces, items))
}

/// Where the kinds of facts after the marked items begin, and how many numbers there are.
fn others_of_facts(all: &[AsmRec], items: u32) -> Result<(u32, u32, u32), NoMemory>
    requires { items ≡ item_count all.now }
    ensures { IfOk result (λ s. (s.0 ≡ before_shown all.now) × (s.1 ≡ before_reflected all.now) × (s.2 ≡ universe all.now)) }
{
    let shown = after(all, items, Kind::Type)?;
    let reflected = after(all, shown, Kind::Type)?;
    let universe = sum(reflected, items as usize)?;
    Ok((shown, reflected, universe))
}

impl Starts {
    /// Where each kind begins in the assemblies of a world.
    pub fn of(all: &[AsmRec]) -> Result<Starts, NoMemory>
        ensures { IfOk result (AreStarts all.now) }
    {
        let (types, methods, fields, properties) = members(all)?;
        let (events, interfaces, instantiated) = others(all, properties)?;
        let (shown, reflected, universe) = others_of_facts(all, instantiated)?;
        Ok(Starts {
            types,
            methods,
            fields,
            properties,
            events,
            interfaces,
            instantiated,
            shown,
            reflected,
            universe,
        })
    }

    /// The place of an item among all.
    #[tactic(auto, unfolding(base_laws::specs::world_laws::Homes::place_of))]
    pub fn place_of(&self, all: &[AsmRec], item: Item) -> Result<u32, NoMemory>
        requires { AreStarts all.now self.now }
        ensures { IfOk result (λ place. place ≡ place_of all.now item) }
    {
        match item {
            Item::Asm(id) => Ok(id.0),
            Item::Typ(id) => sum(self.types, id.0 as usize),
            Item::Method(id) => sum(self.methods, id.0 as usize),
            Item::Field(id) => sum(self.fields, id.0 as usize),
            Item::Prop(id) => sum(self.properties, id.0 as usize),
            Item::Event(id) => sum(self.events, id.0 as usize),
            Item::Impl(id) => sum(self.interfaces, id.0 as usize),
        }
    }
}
