//! The kinds of items.

ghost use Rattle.std.specs.Prelude.{◌≡◌};
ghost use Rattle.resolver.specs.Kinds.{count_in, item_of, table_of};

use il_base::world_model::AsmRec;
use il_base::{AsmId, EventId, FieldId, ImplId, Item, MethodId, PropId, TypeId, table};

/// A kind of items, in the order in which their places stand in a world.
#[derive(Clone, Copy, Debug, PartialEq, Eq)]
pub enum Kind {
    Asm,
    Typ,
    Method,
    Field,
    Prop,
    Event,
    Impl,
}

/// How many of a kind an assembly has.
pub(crate) fn count_in(kind: Kind, rec: &AsmRec) -> usize
    ensures { result ≡ count_in kind rec.now }
{
    match kind {
        Kind::Asm => 1,
        Kind::Typ => rec.type_def.len(),
        Kind::Method => rec.method_def.len(),
        Kind::Field => rec.field.len(),
        Kind::Prop => rec.property.len(),
        Kind::Event => rec.event.len(),
        Kind::Impl => rec.interface_impl.len(),
    }
}

pub(crate) fn item_of(kind: Kind, id: u32) -> Item
    ensures { result ≡ item_of kind id }
{
    match kind {
        Kind::Asm => Item::Asm(AsmId(id)),
        Kind::Typ => Item::Typ(TypeId(id)),
        Kind::Method => Item::Method(MethodId(id)),
        Kind::Field => Item::Field(FieldId(id)),
        Kind::Prop => Item::Prop(PropId(id)),
        Kind::Event => Item::Event(EventId(id)),
        Kind::Impl => Item::Impl(ImplId(id)),
    }
}

/// The table (II.22) whose rows are of a kind.
pub(crate) fn table_of(kind: Kind) -> u8
    ensures { result ≡ table_of kind }
{
    match kind {
        Kind::Asm => table::ASSEMBLY,
        Kind::Typ => table::TYPE_DEF,
        Kind::Method => table::METHOD_DEF,
        Kind::Field => table::FIELD,
        Kind::Prop => table::PROPERTY,
        Kind::Event => table::EVENT,
        Kind::Impl => table::INTERFACE_IMPL,
    }
}
