ghost use Rattle.std.specs.Prelude.{◌≡◌, IfOk, IfSome};
ghost use Rattle.std.specs.Option.{option_copied};
ghost use Rattle.rules.specs.step_rules.Queries.{Queries};
ghost use Rattle.machine_words.specs.cil_queries.Bodies.{instruction_of};

use il_base::cil_values::{
    CoreCall, FieldDef, Head, Instruction, Layout, MemberKind, Method, PropertyDef, Shape, Sought,
};
use il_base::core_table::CoreName;
use il_base::world_model::{MethodUse, TypeExpr};
use il_base::{Item, NoMemory, Seq, Text};
use rules::type_rules::FoundMember;
use std::alloc::Global;

/// Two methods of Object, by their places in the world, from 0.
#[derive(Clone, Copy, Debug, PartialEq, Eq)]
pub struct ObjectSlots {
    /// Object.ToString().
    pub to_string: u32,
    /// Object.Equals(object).
    pub equals: u32,
}

/// What a world tells the machine. Types, methods and fields go by their places in the world, from 0. `NoMemory` is the only
/// answer without a stated cause.
pub trait Answers {
    ghost queries: { Self → Queries };

    /// The member of the core library that a method is. None for a method of an input, and for an abstract one.
    fn core(&self, method: u32) -> Option<CoreCall>
        ensures { result ≡ (queries self.now).core method };

    /// A type of the core library. One that has an element type isn't asked for.
    fn known(&self, name: CoreName) -> u32
        ensures { result ≡ (queries self.now).known name };

    /// A method. None for one that no type's run holds.
    fn method(&self, method: u32) -> Option<&Method>
        ensures { option_copied result ≡ (queries self.now).method method };

    /// The instruction of a method's body at an IL offset. None where none begins there, or the method has no body that can
    /// run.
    fn instruction(&self, method: u32, at: u32) -> Option<&Instruction>
        ensures { option_copied result ≡ instruction_of (queries self.now) method at };

    /// A field.
    fn field(&self, field: u32) -> Option<&FieldDef>
        ensures { option_copied result ≡ (queries self.now).field field };

    /// A type definition.
    fn head(&self, ty: u32) -> Option<Head>
        ensures { result ≡ (queries self.now).head ty };

    /// What a place of a closed type holds.
    fn shape(&self, alloc: Global, ty: &TypeExpr) -> Result<Shape, NoMemory>
        ensures { IfOk result (λ shape. shape ≡ (queries self.now).shape ty.now) };

    /// The cells of an instance of a class: those of the bases first, before these an exception's own.
    fn cells(&self, alloc: Global, ty: &TypeExpr) -> Result<Seq<Layout>, NoMemory>
        ensures { IfOk result (λ cells. cells ≡ (queries self.now).cells ty.now) };

    /// The same cells, where they are kept. None says nothing of them.
    fn kept_cells(&self, ty: &TypeExpr) -> Option<&[Layout]>
        ensures { IfSome result (λ cells. cells.now ≡ (queries self.now).cells ty.now) };

    /// The initializer of a type (II.10.5.3).
    fn starts(&self, ty: u32) -> Option<u32>
        ensures { result ≡ (queries self.now).starts ty };

    /// The public constructor of a type that takes `this` alone (II.10.5.1).
    fn maker(&self, ty: &TypeExpr) -> Result<Option<u32>, NoMemory>
        ensures { IfOk result (λ method. method ≡ (queries self.now).maker ty.now) };

    /// Whether the first type can stand for the second (I.8.7).
    fn below(&self, alloc: Global, a: &TypeExpr, b: &TypeExpr) -> Result<bool, NoMemory>
        ensures { IfOk result (λ yes. yes ≡ (queries self.now).below a.now b.now) };

    /// What a virtual call runs for an object of a type, with the closed type in which it was found (II.12.2).
    fn answers(
        &self,
        alloc: Global,
        ty: &TypeExpr,
        owner: &TypeExpr,
        method: u32,
    ) -> Result<Option<MethodUse>, NoMemory>
        ensures { IfOk result (λ found. found ≡ (queries self.now).answers ty.now owner.now method) };

    /// A type's text, in UTF-8.
    fn text(&self, alloc: Global, ty: &TypeExpr) -> Result<Text, NoMemory>
        ensures { IfOk result (λ text. text ≡ (queries self.now).text ty.now) };

    /// A type's own name, as reflection gives it (II.22.37), in UTF-8.
    fn label(&self, alloc: Global, ty: &TypeExpr) -> Result<Text, NoMemory>
        ensures { IfOk result (λ text. text ≡ (queries self.now).label ty.now) };

    /// A type's namespace, as reflection gives it (II.22.37), in UTF-8.
    fn space(&self, alloc: Global, ty: &TypeExpr) -> Result<Text, NoMemory>
        ensures { IfOk result (λ text. text ≡ (queries self.now).space ty.now) };

    /// The type definition that another is nested in (II.22.32).
    fn encloser(&self, ty: u32) -> Option<u32>
        ensures { result ≡ (queries self.now).encloser ty };

    /// The type that a text in UTF-8 names for a method: it is looked for in the method's assembly and then in the core library.
    fn find(&self, alloc: Global, method: u32, text: &[u8]) -> Result<Sought, NoMemory>
        ensures { IfOk result (λ sought. sought ≡ (queries self.now).find method text.now) };

    /// The members of a kind that reflection finds in a type: all, or those of a name in UTF-8.
    fn members(
        &self,
        alloc: Global,
        kind: MemberKind,
        name: &Option<Text>,
        ty: &TypeExpr,
    ) -> Result<Seq<FoundMember>, NoMemory>
        ensures { IfOk result (λ found. found ≡ (queries self.now).members kind name.now ty.now) };

    /// The name of a method, a field or a property, in UTF-8.
    fn title(&self, alloc: Global, item: Item) -> Result<Text, NoMemory>
        ensures { IfOk result (λ text. text ≡ (queries self.now).title item) };

    /// None for a property that isn't there.
    fn property(&self, alloc: Global, property: u32) -> Result<Option<PropertyDef>, NoMemory>
        ensures { IfOk result (λ found. found ≡ (queries self.now).property property) };

    /// The nearest type of the core library among a type and its bases.
    fn kin(&self, alloc: Global, ty: &TypeExpr) -> Result<Option<CoreName>, NoMemory>
        ensures { IfOk result (λ name. name ≡ (queries self.now).kin ty.now) };

    /// The slots of Object that members of the core library call.
    fn object_slots(&self) -> ObjectSlots
        ensures text { result.to_string ≡ (queries self.now).to_string }
        ensures equality { result.equals ≡ (queries self.now).equals };
}
