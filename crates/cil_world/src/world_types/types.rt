//! The questions on closed types.

ghost use Rattle.std.specs.Prelude.{◌≡◌, IfOk};
ghost use Rattle.il_base.specs.declared.core_table.names.CoreName.TheVariants as core;
ghost use Rattle.rules.specs.link_rules.Members.{with_bases};
ghost use Rattle.rules.specs.type_rules.Subtypes.{is_subtype};
ghost use Rattle.rules.specs.type_rules.Texts.{text};
ghost use Rattle.rules.specs.type_rules.Labels.{label, space};
ghost use Rattle.type_tables.specs.Tables.{IsTables};
ghost use Rattle.rules.specs.view_rules.Members.{core_call};
ghost use Rattle.rules.specs.view_rules.Answers.{core_type_id, core_method_id, answers_query, find_query, members_query, title_query, property_query, nearest_core};

use crate::world_core::{core_call, core_type_row};
use crate::world_types::answered::{
    Answered, all_answers, copied, find_answer, kept_answer, kept_led,
};
use crate::world_types::core_rows::CoreRows;
use crate::world_types::{bases, kin, reflected, sought};
use il_base::cil_values::{CoreCall, MemberKind, PropertyDef, Sought};
use il_base::core_table::CoreName;
use il_base::world_model::{AsmRec, MethodUse, TypeExpr, World};
use il_base::{Item, MethodId, NoMemory, Seq, Text};
use rules::type_rules::FoundMember;
use std::alloc::Global;
use std::marker::Model;
use type_names::TypeNames;
use type_tables::subtypes::relation;
use type_tables::tables::Tables;
use virtual_calls::slots::Slots;

/// A world with what questions on its closed types are answered by, made once. Contracts see the world, which a link gave.
#[derive(Drop)]
pub struct ClosedTypes<'w> {
    tables: Tables<'w>,
    slots: Slots,
    names: TypeNames<'w>,
    core: CoreRows,
    answered: Answered,
}

impl<'w> Model for ClosedTypes<'w> {
    ghost use Rattle.std.specs.Prelude.{◌≡◌};
    ghost use Rattle.il_base.specs.declared.world_model.world.World.{World};
    ghost use Rattle.il_base.specs.contracts.world_model.world.World as whole;
    ghost use Rattle.type_tables.specs.Tables.{IsTables};
    ghost use Rattle.virtual_calls.specs.Slots.{AreSlots};
    ghost use Rattle.cil_world.specs.world_types.CoreRows.{AreCoreRows};
    ghost use Rattle.cil_world.specs.world_types.Answered.{AreAnswers, AreLed};

    ghost Value = { World };

    ghost coded = { whole.the_row.coded };

    ghost view = { λ t. t.tables.world.now };

    ghost invariant = { λ t. IsTables t.tables × AreSlots t.tables.world.now.recs t.slots × (t.names ≡ t.tables.world.now.recs) × AreCoreRows t.tables.world.now.recs t.core × AreAnswers t.tables.world.now.recs t.answered.answers.items × AreLed t.tables.world.now.recs t.answered.led.items };
}

impl<'w> ClosedTypes<'w> {
    /// The types of a world whose tables are made.
    pub fn of(alloc: Global, tables: Tables<'w>) -> Result<ClosedTypes<'w>, NoMemory>
        requires { IsTables tables }
        ensures { IfOk result (λ types. types ≡ tables.entry.world.now) }
    {
        let Ok(slots) = Slots::of(alloc, &tables) else {
            return Err(NoMemory);
        };
        let Ok(names) = TypeNames::of(alloc, tables.world.recs.as_slice()) else {
            return Err(NoMemory);
        };
        let Ok(core) = CoreRows::of(tables.world.recs.as_slice()) else {
            return Err(NoMemory);
        };
        let Ok(answered) = all_answers(alloc, &tables, &slots) else {
            return Err(NoMemory);
        };
        Ok(ClosedTypes {
            tables,
            slots,
            names,
            core,
            answered,
        })
    }

    /// The assemblies of the world, the last of which is the core library.
    pub fn recs(&self) -> &[AsmRec]
        ensures { result.now ≡ self.now.recs }
    {
        self.tables.world.recs.as_slice()
    }

    /// The member of the core library that a method is. None for a method of an input, and for an abstract one.
    pub fn core_call(&self, method: u32) -> Option<CoreCall>
        ensures { result ≡ core_call self.now.recs method }
    {
        core_call(self.tables.world, MethodId(method))
    }

    /// The id of a type of the core library.
    #[tactic(auto, using(crate::proofs::lemmas::world_types::Rows::row_within))]
    pub fn known(&self, name: CoreName) -> u32
        ensures { result ≡ core_type_id self.now.recs name }
    {
        self.core.types + core_type_row(name)
    }

    /// The id of Object.ToString().
    pub fn to_string(&self) -> u32
        ensures { result ≡ core_method_id self.now.recs core.ToString }
    {
        self.core.to_string
    }

    /// The id of Object.Equals(object).
    pub fn equals(&self) -> u32
        ensures { result ≡ core_method_id self.now.recs core.Equals }
    {
        self.core.equals
    }

    /// Whether the first type can stand for the second (I.8.7).
    pub fn is_subtype(&self, alloc: Global, a: &TypeExpr, b: &TypeExpr) -> Result<bool, NoMemory>
        ensures { IfOk result (λ yes. yes ≡ is_subtype self.now.recs a.now b.now) }
    {
        match kept_led(&self.answered, a) {
            Some(led) => relation::is_subtype_by(self.recs(), a, b, led),
            None => relation::is_subtype(alloc, &self.tables, a, b),
        }
    }

    /// The method that a virtual call runs for an object of a type, by its id, with the closed type in which it was found
    /// (II.12.2). `owner` is the closed owner of the called method.
    pub fn answers(
        &self,
        alloc: Global,
        ty: &TypeExpr,
        owner: &TypeExpr,
        method: u32,
    ) -> Result<Option<MethodUse>, NoMemory>
        ensures { IfOk result (λ found. found ≡ answers_query self.now.recs ty.now owner.now method) }
    {
        match kept_answer(&self.answered, ty, owner, method) {
            Some(found) => copied(alloc, found),
            None => find_answer(alloc, &self.tables, &self.slots, ty, owner, method),
        }
    }

    /// The text of a type, in UTF-8.
    pub fn text(&self, alloc: Global, ty: &TypeExpr) -> Result<Text, NoMemory>
        ensures { IfOk result (λ t. t ≡ text self.now.recs ty.now) }
    {
        self.names.text(alloc, ty)
    }

    /// A type's own name, in UTF-8.
    pub fn label(&self, alloc: Global, ty: &TypeExpr) -> Result<Text, NoMemory>
        ensures { IfOk result (λ t. t ≡ label self.now.recs ty.now) }
    {
        self.names.label(alloc, ty)
    }

    /// A type's namespace, in UTF-8.
    pub fn space(&self, alloc: Global, ty: &TypeExpr) -> Result<Text, NoMemory>
        ensures { IfOk result (λ t. t ≡ space self.now.recs ty.now) }
    {
        self.names.space(alloc, ty)
    }

    /// The type that a text in UTF-8 names for a method: it is looked for in the method's assembly and then in the core library.
    pub fn find(&self, alloc: Global, method: u32, text: &[u8]) -> Result<Sought, NoMemory>
        ensures { IfOk result (λ sought. sought ≡ find_query self.now.recs method text.now) }
    {
        sought::find(alloc, self.recs(), &self.names, MethodId(method), text)
    }

    /// The members of a kind that reflection finds in a type: all, or those of a name in UTF-8.
    pub fn members(
        &self,
        alloc: Global,
        kind: MemberKind,
        name: &Option<Text>,
        ty: &TypeExpr,
    ) -> Result<Seq<FoundMember>, NoMemory>
        ensures { IfOk result (λ members. members ≡ members_query self.now.recs kind name.now ty.now) }
    {
        reflected::members(alloc, &self.tables, &self.slots, kind, name, ty)
    }

    /// The name of a method, a field or a property, in UTF-8.
    pub fn title(&self, alloc: Global, item: Item) -> Result<Text, NoMemory>
        ensures { IfOk result (λ text. text ≡ title_query self.now.recs item) }
    {
        reflected::title(alloc, self.recs(), item)
    }

    /// A property (II.22.34). None for one that isn't there.
    pub fn property(&self, alloc: Global, property: u32) -> Result<Option<PropertyDef>, NoMemory>
        ensures { IfOk result (λ found. found ≡ property_query self.now.recs property) }
    {
        reflected::property(alloc, &self.tables, property)
    }

    /// The nearest type of the core library among a type and its bases.
    pub fn kin(&self, alloc: Global, ty: &TypeExpr) -> Result<Option<CoreName>, NoMemory>
        ensures { IfOk result (λ name. name ≡ nearest_core self.now.recs (with_bases self.now.recs ty.now)) }
    {
        kin::kin(alloc, &self.tables, ty)
    }

    /// A type and its bases, the nearest first.
    pub fn with_bases(&self, alloc: Global, ty: &TypeExpr) -> Result<Vec<TypeExpr>, NoMemory>
        ensures { IfOk result (λ types. types.items ≡ with_bases self.now.recs ty.now) }
    {
        bases::with_bases(alloc, &self.tables, ty)
    }
}
