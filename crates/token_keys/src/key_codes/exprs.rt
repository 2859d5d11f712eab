//! Codes of type expressions.

ghost use Rattle.std.specs.Prelude.{◌≡◌, ◌++◌, OnOk};
ghost use Rattle.std.specs.List.{flat_map};
ghost use Rattle.link_faults.specs.Codes.{type_code};

use crate::key_codes::numbers::{add_count, add_flagged, add_pair};
use il_base::NoMemory;
use il_base::world_model::TypeExpr;

/// Adds the code of a type.
#[cycle(coding)]
#[tactic(auto, using(link_faults::proofs::CodeLayers::coding))]
pub fn add_expr(code: &mut Vec<u32>, ty: &TypeExpr) -> Result<(), NoMemory>
    ensures { OnOk result (code.new.items ≡ code.old.items ++ type_code ty.now) }
{
    match ty {
        TypeExpr::Prim(n) => {
            add_pair(code, 0, u32::from(*n))?;
            Ok(())
        }
        TypeExpr::Def(id) => {
            add_pair(code, 1, id.0)?;
            Ok(())
        }
        TypeExpr::Inst(id, args) => {
            add_pair(code, 2, id.0)?;
            add_count(code, args.len())?;
            add_exprs(code, args.as_slice())?;
            Ok(())
        }
        TypeExpr::Array(inner) => {
            code.push(3)?;
            add_expr(code, inner.get())?;
            Ok(())
        }
        TypeExpr::ByRef(inner) => {
            code.push(4)?;
            add_expr(code, inner.get())?;
            Ok(())
        }
        TypeExpr::Var(n) => {
            add_pair(code, 5, *n)?;
            Ok(())
        }
        TypeExpr::MVar(n) => {
            add_pair(code, 6, *n)?;
            Ok(())
        }
        TypeExpr::Mod {
            required,
            by,
            inner,
        } => {
            add_flagged(code, 7, *required, by.0)?;
            add_expr(code, inner.get())?;
            Ok(())
        }
    }
}

/// Adds the codes of types, one after the other.
#[cycle(coding)]
fn add_exprs(code: &mut Vec<u32>, types: &[TypeExpr]) -> Result<(), NoMemory>
    ensures { OnOk result (code.new.items ≡ code.old.items ++ flat_map type_code types.now) }
{
    for ty in types {
        add_expr(code, ty)?;
    }
    Ok(())
}
