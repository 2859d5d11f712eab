ghost use Rattle.std.specs.Prelude.{◌≡◌};
ghost use Rattle.merge_plan.specs.Kept.{flags_of, item_of, kept_by};

use il_base::{Bits, Item};

/// A kind of items whose rows are counted over all assemblies.
#[derive(Clone, Copy, Debug, PartialEq, Eq)]
pub enum Kind {
    Types,
    Methods,
    Fields,
    Properties,
    Events,
    /// Rows of InterfaceImpl.
    Interfaces,
}

/// The items that are kept: of each kind a flag for each id.
#[derive(Drop)]
pub struct KeptItems {
    pub assemblies: Bits,
    pub types: Bits,
    pub methods: Bits,
    pub fields: Bits,
    pub properties: Bits,
    pub events: Bits,
    pub interfaces: Bits,
}

impl KeptItems {
    fn flags_of(&self, kind: Kind) -> &Bits
        ensures { result.now ≡ flags_of self.now kind }
    {
        match kind {
            Kind::Types => &self.types,
            Kind::Methods => &self.methods,
            Kind::Fields => &self.fields,
            Kind::Properties => &self.properties,
            Kind::Events => &self.events,
            Kind::Interfaces => &self.interfaces,
        }
    }

    /// Whether the item of a kind with this id is kept.
    #[tactic(auto, using(crate::proofs::Items::flag_is))]
    pub fn keeps(&self, kind: Kind, id: u32) -> bool
        ensures { result ≡ kept_by self.now (item_of kind id) }
    {
        self.flags_of(kind).has(id)
    }

    /// Whether an item is kept.
    pub fn has(&self, item: Item) -> bool
        ensures { result ≡ kept_by self.now item }
    {
        match item {
            Item::Asm(a) => self.assemblies.has(a.0),
            Item::Typ(t) => self.types.has(t.0),
            Item::Method(m) => self.methods.has(m.0),
            Item::Field(f) => self.fields.has(f.0),
            Item::Prop(p) => self.properties.has(p.0),
            Item::Event(e) => self.events.has(e.0),
            Item::Impl(i) => self.interfaces.has(i.0),
        }
    }
}
