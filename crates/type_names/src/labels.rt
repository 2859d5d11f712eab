//! The own names of types and their namespaces, as reflection gives them.

ghost use Rattle.std.specs.Prelude.{◌≡◌, ◌++◌, length, slice_get, IfOk};
ghost use Rattle.std.specs.Fmt.{decimal};
ghost use Rattle.rules.specs.type_rules.Labels.{own_space, row_space, definition_label, definition_space, label, space};

use crate::assemblies::Assemblies;
use crate::chain::bare_name;
use crate::nested::Nested;
use il_base::world_model::{AsmRec, TypeExpr, prim_type};
use il_base::{NoMemory, Seq, Text, TypeId};
use std::alloc::Global;

impl Assemblies<'_> {
    /// A type's own name: that of its definition without enclosers and arguments, `[]` after an array's element, `&` after what is
    /// referred to.
    pub(crate) fn label(&self, alloc: Global, ty: &TypeExpr) -> Result<Text, NoMemory>
        ensures { IfOk result (λ t. t ≡ label self.now ty.now) }
    {
        label_of(alloc, self, ty)
    }

    /// A type's namespace: that of the outermost type around its definition, or around that of an array's element.
    pub(crate) fn space(&self, alloc: Global, ty: &TypeExpr) -> Result<Text, NoMemory>
        ensures { IfOk result (λ t. t ≡ space self.now ty.now) }
    {
        space_of(alloc, self, ty)
    }
}

/// A type's own name.
#[tactic(auto, using(crate::proofs::LabelLayers::labelling))]
fn label_of(alloc: Global, world: &Assemblies, ty: &TypeExpr) -> Result<Text, NoMemory>
    ensures { IfOk result (λ t. t ≡ label world.now ty.now) }
{
    match ty {
        TypeExpr::Prim(code) => {
            let id = prim_type(world.recs(), *code)?;
            definition_label(alloc, world, id)
        }
        TypeExpr::Def(id) => definition_label(alloc, world, Some(*id)),
        TypeExpr::Inst(id, _) => definition_label(alloc, world, Some(*id)),
        TypeExpr::Array(inner) => {
            let element = label_of(alloc, world, inner.get())?;
            ended(element, b"[]")
        }
        TypeExpr::ByRef(inner) => {
            let referred = label_of(alloc, world, inner.get())?;
            ended(referred, b"&")
        }
        TypeExpr::Var(n) => numbered(alloc, b"!", *n),
        TypeExpr::MVar(n) => numbered(alloc, b"!!", *n),
        TypeExpr::Mod { inner, .. } => label_of(alloc, world, inner.get()),
    }
}

/// A type's namespace.
#[tactic(auto, using(crate::proofs::LabelLayers::spacing))]
fn space_of(alloc: Global, world: &Assemblies, ty: &TypeExpr) -> Result<Text, NoMemory>
    ensures { IfOk result (λ t. t ≡ space world.now ty.now) }
{
    match ty {
        TypeExpr::Prim(code) => {
            let id = prim_type(world.recs(), *code)?;
            definition_space(alloc, world, id)
        }
        TypeExpr::Def(id) => definition_space(alloc, world, Some(*id)),
        TypeExpr::Inst(id, _) => definition_space(alloc, world, Some(*id)),
        TypeExpr::Array(inner) => space_of(alloc, world, inner.get()),
        TypeExpr::ByRef(inner) => space_of(alloc, world, inner.get()),
        TypeExpr::Var(_) => Ok(Seq::new(alloc)),
        TypeExpr::MVar(_) => Ok(Seq::new(alloc)),
        TypeExpr::Mod { inner, .. } => space_of(alloc, world, inner.get()),
    }
}

/// A text with an end.
fn ended(text: Text, end: &[u8]) -> Result<Text, NoMemory>
    ensures { IfOk result (λ t. t ≡ text ++ end.now) }
{
    let mut out = text;
    out.extend_from_slice(end)?;
    Ok(out)
}

/// The number of a generic parameter after its sign.
fn numbered(alloc: Global, sign: &[u8], n: u32) -> Result<Text, NoMemory>
    ensures { IfOk result (λ t. t ≡ sign.now ++ decimal n) }
{
    let number = n.to_string(alloc)?;
    let out = Seq::from_slice(alloc, sign)?;
    ended(out, number.as_bytes())
}

/// A definition's own name.
#[tactic(auto, using(crate::proofs::HomeLemmas::label_none, crate::proofs::HomeLemmas::label_is))]
fn definition_label(alloc: Global, world: &Assemblies, id: Option<TypeId>) -> Result<Text, NoMemory>
    ensures { IfOk result (λ t. t ≡ definition_label world.now id) }
{
    match id {
        None => Ok(Seq::new(alloc)),
        Some(id) => match world.row_of(id) {
            None => Ok(Seq::new(alloc)),
            Some((nested, row)) => Seq::from_slice(alloc, bare_name(nested.rec(), row)),
        },
    }
}

/// A definition's namespace.
#[tactic(auto, using(crate::proofs::HomeLemmas::space_none, crate::proofs::HomeLemmas::space_is))]
fn definition_space(alloc: Global, world: &Assemblies, id: Option<TypeId>) -> Result<Text, NoMemory>
    ensures { IfOk result (λ t. t ≡ definition_space world.now id) }
{
    match id {
        None => Ok(Seq::new(alloc)),
        Some(id) => match world.row_of(id) {
            None => Ok(Seq::new(alloc)),
            Some((nested, row)) => Seq::from_slice(alloc, row_space(nested, row)),
        },
    }
}

/// The namespace of the outermost type around the type of a row, from 0; none where the enclosers go in a circle.
fn row_space<'a>(nested: &'a Nested, row: u32) -> &'a [u8]
    ensures { result.now ≡ row_space nested.now (length nested.now.type_def) row }
{
    let rec = nested.rec();
    let mut at = row;
    for _step in 0..rec.type_def.len() {
        match nested.encloser(at) {
            None => return own_space(rec, at),
            Some(around) => at = around,
        }
    }
    &[]
}

/// The namespace that a row of TypeDef, from 0, has itself.
fn own_space(rec: &AsmRec, row: u32) -> &[u8]
    ensures { result.now ≡ own_space (slice_get rec.now.type_def row) }
{
    match rec.type_def.get(row as usize) {
        None => &[],
        Some(ty) => ty.namespace.as_slice(),
    }
}
