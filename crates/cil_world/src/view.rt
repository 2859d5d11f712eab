//! A world as the machine sees it.

ghost use Rattle.std.specs.Prelude.{◌≡◌, IfOk};
ghost use Rattle.rules.specs.link_rules.Linked.{IsWorld};
ghost use Rattle.rules.specs.view_rules.Answers.{maker_query, queries_of};

use crate::kept::{all_kept, cells_in};
use crate::world_definitions::Definitions;
use crate::world_layouts::Layouts;
use crate::world_types::ClosedTypes;
use il_base::cil_values::{
    CoreCall, FieldDef, Head, Instruction, Layout, MemberKind, Method, PropertyDef, Shape, Sought,
};
use il_base::core_table::CoreName;
use il_base::world_model::{AsmRec, MethodUse, TypeExpr, World};
use il_base::{Item, NoMemory, Seq, Text};
use machine_words::cil_queries::{Answers, ObjectSlots};
use mark_parts::mark_tables::marker::Marker;
use rules::type_rules::FoundMember;
use std::alloc::Global;
use std::marker::Model;
use type_tables::member_search::bases::owner_of;

/// A world that a link gave, with what its answers are looked up in, made once. Contracts see the world.
#[derive(Drop)]
pub struct View<'w> {
    layouts: Layouts<'w>,
    types: ClosedTypes<'w>,
    /// The cells of types without arguments, by their places in the world, where they are soon made.
    kept: Vec<Option<Seq<Layout>>>,
}

impl<'w> Model for View<'w> {
    ghost use Rattle.std.specs.Prelude.{◌≡◌};
    ghost use Rattle.il_base.specs.declared.world_model.world.World.{World};
    ghost use Rattle.il_base.specs.contracts.world_model.world.World as whole;
    ghost use Rattle.cil_world.specs.Kept.{AreKept};

    ghost Value = { World };

    ghost coded = { whole.the_row.coded };

    ghost view = { λ v. v.types };

    ghost invariant = { λ v. (v.types ≡ v.layouts) × AreKept v.types.recs v.kept.items };
}

impl<'w> View<'w> {
    /// The view of a world that a link gave.
    pub fn of(alloc: Global, world: &'w World) -> Result<View<'w>, NoMemory>
        requires { IsWorld world.now }
        ensures { IfOk result (λ view. view ≡ world.now) }
    {
        let marker = Marker::of(alloc, world)?;
        let definitions = Definitions::of(alloc, &marker)?;
        let layouts = Layouts::of(alloc, &marker, definitions)?;
        let Marker { tables, .. } = marker;
        let types = ClosedTypes::of(alloc, tables)?;
        let kept = all_kept(alloc, &layouts, &types)?;
        Ok(View {
            layouts,
            types,
            kept,
        })
    }
}

/// The constructor by which reflection makes objects of a type, by its place in the world.
#[tactic(auto, unfolding(rules::specs::view_rules::Answers::maker_query))]
fn maker_of(
    all: &[AsmRec],
    definitions: &Definitions<'_>,
    ty: &TypeExpr,
) -> Result<Option<u32>, NoMemory>
    requires { definitions.now.recs ≡ all.now }
    ensures { IfOk result (λ method. method ≡ maker_query all.now ty.now) }
{
    match owner_of(all, ty) {
        Ok(Some(id)) => Ok(definitions.maker(id.0)),
        Ok(None) => Ok(None),
        Err(error) => Err(error),
    }
}

#[tactic(auto, unfolding(rules::specs::view_rules::Answers::queries_of))]
impl<'w> Answers for View<'w> {
    ghost queries = { λ world. queries_of world.recs };

    fn core(&self, method: u32) -> Option<CoreCall> {
        self.types.core_call(method)
    }

    fn known(&self, name: CoreName) -> u32 {
        self.types.known(name)
    }

    fn method(&self, method: u32) -> Option<&Method> {
        self.layouts.definitions().method(method)
    }

    fn instruction(&self, method: u32, at: u32) -> Option<&Instruction> {
        self.layouts.definitions().instruction(method, at)
    }

    fn field(&self, field: u32) -> Option<&FieldDef> {
        self.layouts.definitions().field(field)
    }

    fn head(&self, ty: u32) -> Option<Head> {
        self.layouts.definitions().head(ty)
    }

    fn shape(&self, alloc: Global, ty: &TypeExpr) -> Result<Shape, NoMemory> {
        self.layouts.shape(alloc, ty)
    }

    fn cells(&self, alloc: Global, ty: &TypeExpr) -> Result<Seq<Layout>, NoMemory> {
        self.layouts.cells(alloc, &self.types, ty)
    }

    fn kept_cells(&self, ty: &TypeExpr) -> Option<&[Layout]> {
        cells_in(self.kept.as_slice(), ty)
    }

    fn starts(&self, ty: u32) -> Option<u32> {
        self.layouts.definitions().starts(ty)
    }

    fn maker(&self, ty: &TypeExpr) -> Result<Option<u32>, NoMemory> {
        maker_of(self.types.recs(), self.layouts.definitions(), ty)
    }

    fn below(&self, alloc: Global, a: &TypeExpr, b: &TypeExpr) -> Result<bool, NoMemory> {
        self.types.is_subtype(alloc, a, b)
    }

    fn answers(
        &self,
        alloc: Global,
        ty: &TypeExpr,
        owner: &TypeExpr,
        method: u32,
    ) -> Result<Option<MethodUse>, NoMemory> {
        self.types.answers(alloc, ty, owner, method)
    }

    fn text(&self, alloc: Global, ty: &TypeExpr) -> Result<Text, NoMemory> {
        self.types.text(alloc, ty)
    }

    fn label(&self, alloc: Global, ty: &TypeExpr) -> Result<Text, NoMemory> {
        self.types.label(alloc, ty)
    }

    fn space(&self, alloc: Global, ty: &TypeExpr) -> Result<Text, NoMemory> {
        self.types.space(alloc, ty)
    }

    fn encloser(&self, ty: u32) -> Option<u32> {
        self.layouts.definitions().encloser(ty)
    }

    fn find(&self, alloc: Global, method: u32, text: &[u8]) -> Result<Sought, NoMemory> {
        self.types.find(alloc, method, text)
    }

    fn members(
        &self,
        alloc: Global,
        kind: MemberKind,
        name: &Option<Text>,
        ty: &TypeExpr,
    ) -> Result<Seq<FoundMember>, NoMemory> {
        self.types.members(alloc, kind, name, ty)
    }

    fn title(&self, alloc: Global, item: Item) -> Result<Text, NoMemory> {
        self.types.title(alloc, item)
    }

    fn property(&self, alloc: Global, property: u32) -> Result<Option<PropertyDef>, NoMemory> {
        self.types.property(alloc, property)
    }

    fn kin(&self, alloc: Global, ty: &TypeExpr) -> Result<Option<CoreName>, NoMemory> {
        self.types.kin(alloc, ty)
    }

    fn object_slots(&self) -> ObjectSlots {
        ObjectSlots {
            to_string: self.types.to_string(),
            equals: self.types.equals(),
        }
    }
}
