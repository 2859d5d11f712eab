ghost use Rattle.std.specs.Prelude.{◌≡◌};
ghost use Rattle.mark_parts.specs.mark_facts.Kinds.{count_in, item_numbered};

use il_base::world_model::AsmRec;
use il_base::{EventId, FieldId, ImplId, Item, MethodId, PropId, TypeId};

/// The kinds of items that are rows of a table.
#[derive(Clone, Copy, Debug, PartialEq, Eq)]
pub enum Kind {
    Type,
    Method,
    Field,
    Property,
    Event,
    /// A row of InterfaceImpl.
    Interface,
}

/// How many rows of a kind an assembly has.
pub fn count_in(rec: &AsmRec, kind: Kind) -> usize
    ensures { result ≡ count_in kind rec.now }
{
    match kind {
        Kind::Type => rec.type_def.len(),
        Kind::Method => rec.method_def.len(),
        Kind::Field => rec.field.len(),
        Kind::Property => rec.property.len(),
        Kind::Event => rec.event.len(),
        Kind::Interface => rec.interface_impl.len(),
    }
}

/// The item of a kind with a number: the rows of all assemblies in order, counted from 0.
pub fn item_numbered(kind: Kind, number: u32) -> Item
    ensures { result ≡ item_numbered kind number }
{
    match kind {
        Kind::Type => Item::Typ(TypeId(number)),
        Kind::Method => Item::Method(MethodId(number)),
        Kind::Field => Item::Field(FieldId(number)),
        Kind::Property => Item::Prop(PropId(number)),
        Kind::Event => Item::Event(EventId(number)),
        Kind::Interface => Item::Impl(ImplId(number)),
    }
}
