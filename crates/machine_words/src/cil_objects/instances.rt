//! New objects.

ghost use Rattle.std.specs.Prelude.{◌≡◌, IfOk};
ghost use Rattle.rules.specs.step_rules.Objects.{new_instance};

use crate::cil_queries::Answers;
use crate::cil_stores::zero_cells;
use il_base::NoMemory;
use il_base::cil_values::Obj;
use il_base::world_model::TypeExpr;
use std::alloc::Global;

/// An instance of a class, each cell as it is at first.
pub fn new_instance<Q: Answers>(alloc: Global, q: &Q, ty: &TypeExpr) -> Result<Obj, NoMemory>
    ensures { IfOk result (λ o. o ≡ new_instance (Q.queries q.now) ty.now) }
{
    let of = ty.copy(alloc)?;
    let cells = zero_cells(alloc, q, ty)?;
    Ok(Obj::Instance { of, cells })
}
