//! Signatures that are made of types, with the numbers of types.

ghost use Rattle.std.specs.Prelude.{◌≡◌, suc, map, IfOk};
ghost use Rattle.rules.specs.merge_rules.Keys.{is_value, made_sig};
ghost use Rattle.type_tables.specs.Tables.{IsTables};

use il_base::world_model::TypeExpr;
use il_base::{Boxed, NoMemory, Seq, Sig, TypeId};
use std::alloc::Global;
use type_tables::member_search::homes::type_home;
use type_tables::subtypes::references::is_value_type;
use type_tables::tables::Tables;

/// The number of a type: one more than its place among the types of the world.
fn number_of(id: TypeId) -> Result<u32, NoMemory>
    ensures { IfOk result (λ n. n ≡ suc id.0) }
{
    id.0.checked_add(1).ok_or(NoMemory)
}

/// Whether a type is a value type (II.13).
fn is_value(tables: &Tables<'_>, id: TypeId) -> Result<bool, NoMemory>
    requires { IsTables tables.now }
    ensures { IfOk result (λ is. is ≡ is_value tables.now.world.now.recs id) }
{
    match type_home(tables.world.recs.as_slice(), id) {
        Ok(Some(at)) => {
            let is = is_value_type(tables, at)?;
            Ok(is)
        }
        Ok(None) => Ok(false),
        Err(error) => Err(error),
    }
}

/// The signature of a type over the types of the world: VALUETYPE exactly for value types (II.23.2.12).
#[cycle(making)]
#[tactic(auto, using(crate::proofs::MadeLayers::making))]
pub fn made_sig(alloc: Global, tables: &Tables<'_>, ty: &TypeExpr) -> Result<Sig, NoMemory>
    requires { IsTables tables.now }
    ensures { IfOk result (λ s. s ≡ made_sig tables.now.world.now.recs ty.now) }
{
    match ty {
        TypeExpr::Prim(code) => Ok(Sig::Prim(*code)),
        TypeExpr::Def(id) => {
            let value = is_value(tables, *id)?;
            let token = number_of(*id)?;
            Ok(Sig::Named { value, token })
        }
        TypeExpr::Inst(id, args) => {
            let value = is_value(tables, *id)?;
            let token = number_of(*id)?;
            let args = made_sigs(alloc, tables, args.as_slice())?;
            Ok(Sig::Inst { value, token, args })
        }
        TypeExpr::Array(inner) => {
            let inner = made_boxed(alloc, tables, inner)?;
            Ok(Sig::Array(inner))
        }
        TypeExpr::ByRef(inner) => {
            let inner = made_boxed(alloc, tables, inner)?;
            Ok(Sig::ByRef(inner))
        }
        TypeExpr::Var(n) => Ok(Sig::Var(*n)),
        TypeExpr::MVar(n) => Ok(Sig::MVar(*n)),
        TypeExpr::Mod {
            required,
            by,
            inner,
        } => {
            let token = number_of(*by)?;
            let inner = made_boxed(alloc, tables, inner)?;
            Ok(Sig::Mod {
                required: *required,
                token,
                inner,
            })
        }
    }
}

#[cycle(making)]
fn made_boxed(
    alloc: Global,
    tables: &Tables<'_>,
    ty: &Boxed<TypeExpr>,
) -> Result<Boxed<Sig>, NoMemory>
    requires { IsTables tables.now }
    ensures { IfOk result (λ s. s ≡ made_sig tables.now.world.now.recs ty.now) }
{
    let inner = made_sig(alloc, tables, ty.get())?;
    Boxed::new(alloc, inner)
}

#[cycle(making)]
fn made_sigs(alloc: Global, tables: &Tables<'_>, types: &[TypeExpr]) -> Result<Seq<Sig>, NoMemory>
    requires { IsTables tables.now }
    ensures { IfOk result (λ s. s ≡ map (made_sig tables.now.world.now.recs) types.now) }
{
    let mut made = Seq::new(alloc);
    for ty in types {
        let sig = made_sig(alloc, tables, ty)?;
        made.push(sig)?;
    }
    Ok(made)
}
