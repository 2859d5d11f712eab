//! Copies of type expressions, and generic arguments put in (II.9.8).

ghost use Rattle.std.specs.Prelude.{◌≡◌, map, slice_get, IfOk};
ghost use Rattle.std.specs.Option.{option_copied};
ghost use Rattle.il_base.specs.declared.world_model.expr.TypeExpr as expr;
ghost use Rattle.il_base.specs.world_model.Exprs.{arg_or, subst};

use crate::world_model::expr::TypeExpr;
use crate::{Boxed, NoMemory, Seq};
use std::alloc::Global;

impl TypeExpr {
    /// A copy of the type.
    #[cycle(copying)]
    pub fn copy(&self, alloc: Global) -> Result<TypeExpr, NoMemory>
        ensures { IfOk result (λ e. e ≡ self.now) }
    {
        match self {
            TypeExpr::Prim(code) => Ok(TypeExpr::Prim(*code)),
            TypeExpr::Def(id) => Ok(TypeExpr::Def(*id)),
            TypeExpr::Inst(id, args) => {
                let args = TypeExpr::copy_all(alloc, args.as_slice())?;
                Ok(TypeExpr::Inst(*id, args))
            }
            TypeExpr::Array(inner) => {
                let inner = TypeExpr::copy_boxed(alloc, inner)?;
                Ok(TypeExpr::Array(inner))
            }
            TypeExpr::ByRef(inner) => {
                let inner = TypeExpr::copy_boxed(alloc, inner)?;
                Ok(TypeExpr::ByRef(inner))
            }
            TypeExpr::Var(n) => Ok(TypeExpr::Var(*n)),
            TypeExpr::MVar(n) => Ok(TypeExpr::MVar(*n)),
            TypeExpr::Mod {
                required,
                by,
                inner,
            } => {
                let inner = TypeExpr::copy_boxed(alloc, inner)?;
                Ok(TypeExpr::Mod {
                    required: *required,
                    by: *by,
                    inner,
                })
            }
        }
    }

    #[cycle(copying)]
    fn copy_boxed(alloc: Global, ty: &Boxed<TypeExpr>) -> Result<Boxed<TypeExpr>, NoMemory>
        ensures { IfOk result (λ e. e ≡ ty.now) }
    {
        let inner = ty.get().copy(alloc)?;
        Boxed::new(alloc, inner)
    }

    /// Copies of some types, in their order.
    #[cycle(copying)]
    pub fn copy_all(alloc: Global, types: &[TypeExpr]) -> Result<Seq<TypeExpr>, NoMemory>
        ensures { IfOk result (λ es. es ≡ types.now) }
    {
        let mut copies = Seq::new(alloc);
        for one in types {
            let copy = one.copy(alloc)?;
            copies.push(copy)?;
        }
        Ok(copies)
    }

    /// The type with these arguments of the type and of the method in place of its generic parameters. A parameter whose
    /// number is beyond its list stays as it is.
    #[cycle(substituting)]
    #[tactic(auto, using(crate::proofs::lemmas::world_model::ExprLayers::substituting))]
    pub fn subst(
        &self,
        alloc: Global,
        targs: &[TypeExpr],
        margs: &[TypeExpr],
    ) -> Result<TypeExpr, NoMemory>
        ensures { IfOk result (λ e. e ≡ subst targs.now margs.now self.now) }
    {
        match self {
            TypeExpr::Prim(code) => Ok(TypeExpr::Prim(*code)),
            TypeExpr::Def(id) => Ok(TypeExpr::Def(*id)),
            TypeExpr::Inst(id, args) => {
                let args = TypeExpr::subst_all(alloc, args.as_slice(), targs, margs)?;
                Ok(TypeExpr::Inst(*id, args))
            }
            TypeExpr::Array(inner) => {
                let inner = TypeExpr::subst_boxed(alloc, inner, targs, margs)?;
                Ok(TypeExpr::Array(inner))
            }
            TypeExpr::ByRef(inner) => {
                let inner = TypeExpr::subst_boxed(alloc, inner, targs, margs)?;
                Ok(TypeExpr::ByRef(inner))
            }
            TypeExpr::Var(n) => type_argument(alloc, targs, *n),
            TypeExpr::MVar(n) => method_argument(alloc, margs, *n),
            TypeExpr::Mod {
                required,
                by,
                inner,
            } => {
                let inner = TypeExpr::subst_boxed(alloc, inner, targs, margs)?;
                Ok(TypeExpr::Mod {
                    required: *required,
                    by: *by,
                    inner,
                })
            }
        }
    }

    #[cycle(substituting)]
    fn subst_boxed(
        alloc: Global,
        ty: &Boxed<TypeExpr>,
        targs: &[TypeExpr],
        margs: &[TypeExpr],
    ) -> Result<Boxed<TypeExpr>, NoMemory>
        ensures { IfOk result (λ e. e ≡ subst targs.now margs.now ty.now) }
    {
        let inner = ty.get().subst(alloc, targs, margs)?;
        Boxed::new(alloc, inner)
    }

    /// Some types with these arguments of the type and of the method in place of their generic parameters, in their
    /// order.
    #[cycle(substituting)]
    pub fn subst_all(
        alloc: Global,
        types: &[TypeExpr],
        targs: &[TypeExpr],
        margs: &[TypeExpr],
    ) -> Result<Seq<TypeExpr>, NoMemory>
        ensures { IfOk result (λ es. es ≡ map (subst targs.now margs.now) types.now) }
    {
        let mut made = Seq::new(alloc);
        for one in types {
            let one = one.subst(alloc, targs, margs)?;
            made.push(one)?;
        }
        Ok(made)
    }
}

/// The argument of the type with a number, from 0. A number beyond the list stays a parameter.
pub(crate) fn type_argument(alloc: Global, targs: &[TypeExpr], n: u32) -> Result<TypeExpr, NoMemory>
    ensures { IfOk result (λ e. e ≡ arg_or targs.now n (expr.Var n)) }
{
    match targs.get(n as usize) {
        None => Ok(TypeExpr::Var(n)),
        Some(arg) => arg.copy(alloc),
    }
}

/// The argument of the method with a number, from 0. A number beyond the list stays a parameter.
pub(crate) fn method_argument(
    alloc: Global,
    margs: &[TypeExpr],
    n: u32,
) -> Result<TypeExpr, NoMemory>
    ensures { IfOk result (λ e. e ≡ arg_or margs.now n (expr.MVar n)) }
{
    match margs.get(n as usize) {
        None => Ok(TypeExpr::MVar(n)),
        Some(arg) => arg.copy(alloc),
    }
}
