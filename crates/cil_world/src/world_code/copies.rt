//! Copies of uses: each is equal to what it was made from.

ghost use Rattle.std.specs.Prelude.{◌≡◌, IfOk};

use il_base::NoMemory;
use il_base::world_model::{FieldUse, MethodUse, TypeExpr};
use std::alloc::Global;

pub(crate) fn copy_method(alloc: Global, used: &MethodUse) -> Result<MethodUse, NoMemory>
    ensures { IfOk result (λ u. u ≡ used.now) }
{
    let owner = used.owner.copy(alloc)?;
    let args = TypeExpr::copy_all(alloc, used.args.as_slice())?;
    Ok(MethodUse {
        method: used.method,
        owner,
        args,
    })
}

pub(crate) fn copy_field(alloc: Global, used: &FieldUse) -> Result<FieldUse, NoMemory>
    ensures { IfOk result (λ u. u ≡ used.now) }
{
    let owner = used.owner.copy(alloc)?;
    Ok(FieldUse {
        field: used.field,
        owner,
    })
}
