use crate::world_model::expr::{FieldUse, MethodUse, TypeExpr};
use crate::world_model::known::Known;
use crate::world_model::record::AsmRec;
use crate::{AsmId, Item, Seq, TypeId};

/// The assembly and row of an item.
#[derive(Clone, Copy, Debug, PartialEq, Eq)]
pub struct Home {
    pub item: Item,
    pub asm: AsmId,
    pub token: u32,
}

/// What a type token of an assembly names.
#[derive(Drop)]
pub struct TypeLink {
    pub asm: AsmId,
    pub token: u32,
    pub to: Known<TypeExpr>,
    /// The type of the core library that a modifier alone finds under this token, where `to` names none.
    pub added: Option<TypeId>,
}

/// What a method token of an assembly names.
#[derive(Drop)]
pub struct MethodLink {
    pub asm: AsmId,
    pub token: u32,
    pub to: Known<MethodUse>,
}

/// What a field token of an assembly names.
#[derive(Drop)]
pub struct FieldLink {
    pub asm: AsmId,
    pub token: u32,
    pub to: Known<FieldUse>,
}

/// Assemblies whose references are resolved: the inputs in word order, the first of them the primary, then the core
/// assembly.
#[derive(Drop)]
pub struct World {
    pub recs: Seq<AsmRec>,
    pub homes: Seq<Home>,
    pub types: Seq<TypeLink>,
    pub methods: Seq<MethodLink>,
    pub fields: Seq<FieldLink>,
}
