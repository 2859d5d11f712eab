//! The types that signatures name, with generic arguments put in: one pass over a signature.

ghost use Rattle.std.specs.Prelude.{◌≡◌, map, IfOk};
ghost use Rattle.il_base.specs.declared.world_model.expr.TypeExpr as expr;
ghost use Rattle.il_base.specs.world_model.Exprs.{subst};
ghost use Rattle.il_base.specs.world_model.Worlds.{type_link_at, known_map, all_known, named_in, definition_named, modifier_named, names_by, instance_of, modified, expr_by, expr_in};

use crate::world_model::expr::TypeExpr;
use crate::world_model::known::Known;
use crate::world_model::record::AsmRec;
use crate::world_model::sig_names::{definition_named, modifier_named, type_named};
use crate::world_model::type_exprs::{method_argument, type_argument};
use crate::world_model::world::{TypeLink, World};
use crate::{AsmId, Boxed, NoMemory, Seq, Sig};
use std::alloc::Global;

/// Where a signature stands, what the tokens there name, and the generic arguments that are put in.
#[derive(Clone, Copy)]
struct Scope<'a> {
    recs: &'a [AsmRec],
    links: &'a [TypeLink],
    asm: AsmId,
    targs: &'a [TypeExpr],
    margs: &'a [TypeExpr],
}

/// The type that a signature of an assembly names by these links, with these arguments of the type and of the method put
/// in place of its generic parameters, or why its first bad token is bad. The links are those of the assemblies in order,
/// and of each assembly those of its TypeRef, TypeDef and TypeSpec rows.
pub fn expr_by(
    alloc: Global,
    recs: &[AsmRec],
    links: &[TypeLink],
    a: AsmId,
    s: &Sig,
    targs: &[TypeExpr],
    margs: &[TypeExpr],
) -> Result<Known<TypeExpr>, NoMemory>
    ensures { IfOk result (λ e. e ≡ expr_by recs.now links.now a.0 targs.now margs.now s.now) }
{
    let scope = Scope {
        recs,
        links,
        asm: a,
        targs,
        margs,
    };
    type_of(alloc, &scope, s)
}

/// The type that a signature names there.
#[cycle(naming)]
#[tactic(auto, using(crate::proofs::lemmas::world_model::SigLayers::naming))]
fn type_of(alloc: Global, at: &Scope<'_>, s: &Sig) -> Result<Known<TypeExpr>, NoMemory>
    ensures { IfOk result (λ e. e ≡ expr_by at.now.recs.now at.now.links.now at.now.asm.0 at.now.targs.now at.now.margs.now s.now) }
{
    match s {
        Sig::Prim(code) => Ok(Known::Good(TypeExpr::Prim(*code))),
        Sig::Named { token, .. } => named(alloc, at, *token),
        Sig::Array(inner) => vector_of(alloc, at, inner),
        Sig::ByRef(inner) => reference_to(alloc, at, inner),
        Sig::Inst { token, args, .. } => instance_of(alloc, at, *token, args.as_slice()),
        Sig::Var(n) => {
            let arg = type_argument(alloc, at.targs, *n)?;
            Ok(Known::Good(arg))
        }
        Sig::MVar(n) => {
            let arg = method_argument(alloc, at.margs, *n)?;
            Ok(Known::Good(arg))
        }
        Sig::Mod {
            required,
            token,
            inner,
        } => modified(alloc, at, *required, *token, inner),
        Sig::Pinned(inner) => type_of(alloc, at, inner.get()),
    }
}

/// The type that a class's or a value type's token names there.
fn named(alloc: Global, at: &Scope<'_>, token: u32) -> Result<Known<TypeExpr>, NoMemory>
    ensures { IfOk result (λ e. e ≡ known_map (subst at.now.targs.now at.now.margs.now) (named_in (type_link_at at.now.recs.now at.now.links.now at.now.asm.0) token)) }
{
    match type_named(at.recs, at.links, at.asm, token) {
        Ok(ty) => {
            let ty = ty.subst(alloc, at.targs, at.margs)?;
            Ok(Known::Good(ty))
        }
        Err(why) => Ok(Known::Bad(why)),
    }
}

/// The type that a part of a signature names there, in a box.
#[cycle(naming)]
fn boxed(alloc: Global, at: &Scope<'_>, s: &Boxed<Sig>) -> Result<Known<Boxed<TypeExpr>>, NoMemory>
    ensures { IfOk result (λ e. e ≡ expr_by at.now.recs.now at.now.links.now at.now.asm.0 at.now.targs.now at.now.margs.now s.now) }
{
    match type_of(alloc, at, s.get()) {
        Err(error) => Err(error),
        Ok(Known::Bad(why)) => Ok(Known::Bad(why)),
        Ok(Known::Good(ty)) => {
            let ty = Boxed::new(alloc, ty)?;
            Ok(Known::Good(ty))
        }
    }
}

#[cycle(naming)]
fn vector_of(alloc: Global, at: &Scope<'_>, s: &Boxed<Sig>) -> Result<Known<TypeExpr>, NoMemory>
    ensures { IfOk result (λ e. e ≡ known_map (λ x. expr.Array x) (expr_by at.now.recs.now at.now.links.now at.now.asm.0 at.now.targs.now at.now.margs.now s.now)) }
{
    match boxed(alloc, at, s) {
        Err(error) => Err(error),
        Ok(Known::Bad(why)) => Ok(Known::Bad(why)),
        Ok(Known::Good(inner)) => Ok(Known::Good(TypeExpr::Array(inner))),
    }
}

#[cycle(naming)]
fn reference_to(alloc: Global, at: &Scope<'_>, s: &Boxed<Sig>) -> Result<Known<TypeExpr>, NoMemory>
    ensures { IfOk result (λ e. e ≡ known_map (λ x. expr.ByRef x) (expr_by at.now.recs.now at.now.links.now at.now.asm.0 at.now.targs.now at.now.margs.now s.now)) }
{
    match boxed(alloc, at, s) {
        Err(error) => Err(error),
        Ok(Known::Bad(why)) => Ok(Known::Bad(why)),
        Ok(Known::Good(inner)) => Ok(Known::Good(TypeExpr::ByRef(inner))),
    }
}

#[cycle(naming)]
fn instance_of(
    alloc: Global,
    at: &Scope<'_>,
    token: u32,
    args: &[Sig],
) -> Result<Known<TypeExpr>, NoMemory>
    ensures { IfOk result (λ e. e ≡ instance_of (definition_named (names_by at.now.recs.now at.now.links.now at.now.asm.0) token) (all_known (map (expr_by at.now.recs.now at.now.links.now at.now.asm.0 at.now.targs.now at.now.margs.now) args.now))) }
{
    let id = match definition_named(at.recs, at.links, at.asm, token) {
        Err(error) => return Err(error),
        Ok(Known::Bad(why)) => return Ok(Known::Bad(why)),
        Ok(Known::Good(id)) => id,
    };
    match types_of(alloc, at, args) {
        Err(error) => Err(error),
        Ok(Known::Bad(why)) => Ok(Known::Bad(why)),
        Ok(Known::Good(args)) => Ok(Known::Good(TypeExpr::Inst(id, args))),
    }
}

#[cycle(naming)]
fn modified(
    alloc: Global,
    at: &Scope<'_>,
    required: bool,
    token: u32,
    s: &Boxed<Sig>,
) -> Result<Known<TypeExpr>, NoMemory>
    ensures { IfOk result (λ e. e ≡ modified required (modifier_named (names_by at.now.recs.now at.now.links.now at.now.asm.0) token) (expr_by at.now.recs.now at.now.links.now at.now.asm.0 at.now.targs.now at.now.margs.now s.now)) }
{
    let by = match modifier_named(at.recs, at.links, at.asm, token) {
        Err(error) => return Err(error),
        Ok(Known::Bad(why)) => return Ok(Known::Bad(why)),
        Ok(Known::Good(by)) => by,
    };
    match boxed(alloc, at, s) {
        Err(error) => Err(error),
        Ok(Known::Bad(why)) => Ok(Known::Bad(why)),
        Ok(Known::Good(inner)) => Ok(Known::Good(TypeExpr::Mod {
            required,
            by,
            inner,
        })),
    }
}

/// The types that some signatures name there, or why the first bad token among them is bad.
#[cycle(naming)]
fn types_of(alloc: Global, at: &Scope<'_>, types: &[Sig]) -> Result<Known<Seq<TypeExpr>>, NoMemory>
    ensures { IfOk result (λ es. es ≡ all_known (map (expr_by at.now.recs.now at.now.links.now at.now.asm.0 at.now.targs.now at.now.margs.now) types.now)) }
{
    let mut made = Seq::new(alloc);
    for one in types {
        match type_of(alloc, at, one) {
            Err(error) => return Err(error),
            Ok(Known::Bad(why)) => return Ok(Known::Bad(why)),
            Ok(Known::Good(ty)) => made.push(ty)?,
        }
    }
    Ok(Known::Good(made))
}

impl World {
    /// The type that a signature of an assembly names, with these arguments of the type and of the method put in place of
    /// its generic parameters, or why its first bad token is bad.
    pub fn expr(
        &self,
        alloc: Global,
        a: AsmId,
        s: &Sig,
        targs: &Seq<TypeExpr>,
        margs: &Seq<TypeExpr>,
    ) -> Result<Known<TypeExpr>, NoMemory>
        ensures { IfOk result (λ e. e ≡ expr_in self.now a.0 targs.now margs.now s.now) }
    {
        let recs = self.recs.as_slice();
        let links = self.types.as_slice();
        expr_by(alloc, recs, links, a, s, targs.as_slice(), margs.as_slice())
    }
}
