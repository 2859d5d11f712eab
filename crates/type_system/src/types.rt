//! The questions on the types of a world.

ghost use Rattle.std.specs.Prelude.{◌≡◌, IfOk};
ghost use Rattle.std.specs.Bool.{Decides};
ghost use Rattle.il_base.specs.world_model.Exprs.{subst};
ghost use Rattle.rules.specs.link_rules.Linked.{IsWorld};
ghost use Rattle.rules.specs.type_rules.Subtypes.{IsSubtype, is_subtype};
ghost use Rattle.rules.specs.type_rules.Dispatch.{dispatch};
ghost use Rattle.rules.specs.type_rules.Texts.{text};
ghost use Rattle.type_tables.specs.Tables.{IsTables};
ghost use Rattle.rules.specs.type_rules.Searches.{find_type, members_named};

use attr_blobs::TypeName;
use il_base::world_model::{TypeExpr, World};
use il_base::{AsmId, Item, MethodId, NoMemory, Seq, Text, TypeId};
use std::alloc::Global;
use std::marker::Model;
use type_names::TypeNames;
use type_tables::subtypes::relation::is_subtype;
use type_tables::tables::Tables;
use virtual_calls::dispatch::dispatch;
use virtual_calls::named_members::members::members_named;
use virtual_calls::slots::Slots;

/// A world with what questions on its types are answered by, made once. Contracts see the world, which a link gave.
#[derive(Drop)]
pub struct Types<'w> {
    tables: Tables<'w>,
    slots: Slots,
    names: TypeNames<'w>,
}

impl<'w> Model for Types<'w> {
    ghost use Rattle.std.specs.Prelude.{◌≡◌};
    ghost use Rattle.il_base.specs.declared.world_model.world.World.{World};
    ghost use Rattle.il_base.specs.contracts.world_model.world.World as world;
    ghost use Rattle.type_tables.specs.Tables.{IsTables};
    ghost use Rattle.virtual_calls.specs.Slots.{AreSlots};

    ghost Value = { World };

    ghost coded = { world.the_row.coded };

    ghost view = { λ t. t.tables.world.now };

    ghost invariant = { λ t. IsTables t.tables × AreSlots t.tables.world.now.recs t.slots × (t.names ≡ t.tables.world.now.recs) };
}

/// The types of a world whose tables are made.
fn with_tables<'w>(alloc: Global, tables: Tables<'w>) -> Result<Types<'w>, NoMemory>
    requires { IsTables tables }
    ensures { IfOk result (λ types. types ≡ tables.entry.world.now) }
{
    match Slots::of(alloc, &tables) {
        Err(_) => Err(NoMemory),
        Ok(slots) => match TypeNames::of(alloc, tables.world.recs.as_slice()) {
            Err(_) => Err(NoMemory),
            Ok(names) => Ok(Types {
                tables,
                slots,
                names,
            }),
        },
    }
}

impl<'w> Types<'w> {
    /// The types of a world that a link gave.
    pub fn new(alloc: Global, world: &'w World) -> Result<Types<'w>, NoMemory>
        requires { IsWorld world.now }
        ensures { IfOk result (λ types. types ≡ world.now) }
    {
        match Tables::of(alloc, world) {
            Err(_) => Err(NoMemory),
            Ok(tables) => with_tables(alloc, tables),
        }
    }

    /// The world.
    pub fn world(&self) -> &World
        ensures { result.now ≡ self.now }
    {
        self.tables.world
    }

    /// Whether a type can stand for another: it is that type, or it leads to it over bases and interfaces; an array also
    /// for an array whose element its own, a reference, can stand for. Variance doesn't count.
    pub fn is_subtype(&self, alloc: Global, a: &TypeExpr, b: &TypeExpr) -> Result<bool, NoMemory>
        ensures searched { IfOk result (λ yes. yes ≡ is_subtype self.now.recs a.now b.now) }
        ensures related { IfOk result (λ yes. Decides yes (IsSubtype self.now.recs a.now b.now)) }
    {
        is_subtype(alloc, &self.tables, a, b)
    }

    /// The method that a virtual method is answered by in a type `t`; None for a method that isn't virtual or isn't there, or
    /// where `t` has nothing for it. For a method of an interface `owner` is the interface instance, for any other it isn't
    /// looked at. A method without a body is an answer too.
    pub fn dispatch(
        &self,
        alloc: Global,
        t: &TypeExpr,
        owner: &TypeExpr,
        slot: MethodId,
    ) -> Result<Option<MethodId>, NoMemory>
        ensures { IfOk result (λ found. found ≡ dispatch self.now.recs t.now owner.now slot) }
    {
        dispatch(alloc, &self.tables, &self.slots, t, owner, slot)
    }

    /// A type with arguments put in place of generic parameters: `targs` of the type, `margs` of the method. A number
    /// beyond its list stays as it is.
    pub fn subst(
        &self,
        alloc: Global,
        e: &TypeExpr,
        targs: &Seq<TypeExpr>,
        margs: &Seq<TypeExpr>,
    ) -> Result<TypeExpr, NoMemory>
        ensures { IfOk result (λ made. made ≡ subst targs.now margs.now e.now) }
    {
        e.subst(alloc, targs.as_slice(), margs.as_slice())
    }

    /// The public members of a type that have a name, as reflection finds them: fields, then methods, properties and events,
    /// each kind in the order of its rows, those of the type before the public instance members of each base. A method,
    /// property or event that one before it overrides is left out.
    pub fn members_named(
        &self,
        alloc: Global,
        t: TypeId,
        name: &[u8],
    ) -> Result<Seq<Item>, NoMemory>
        ensures { IfOk result (λ items. items ≡ members_named self.now.recs t name.now) }
    {
        members_named(alloc, &self.tables, &self.slots, t, name)
    }

    /// The type that a name is of: without an assembly's name it is looked for in the assembly that asks and then in the
    /// core library, with one in that assembly alone.
    pub fn find_type(&self, from: AsmId, n: &TypeName) -> Option<TypeId>
        ensures { result ≡ find_type self.now.recs from.0 n.now }
    {
        self.names.find_type(from, n)
    }

    /// The text of a type: its namespace, a full stop and its name; a nested type after its encloser and `+`; arguments
    /// in brackets after a constructed type, `[]` after an array's element, `&` after what is referred to.
    pub fn text(&self, alloc: Global, e: &TypeExpr) -> Result<Text, NoMemory>
        ensures { IfOk result (λ t. t ≡ text self.now.recs e.now) }
    {
        self.names.text(alloc, e)
    }
}
