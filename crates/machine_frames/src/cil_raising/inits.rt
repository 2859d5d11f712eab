//! How far initializers have come.

ghost use Rattle.std.specs.Prelude.{◌≡◌, IfOk};
ghost use Rattle.rules.specs.step_rules.Raising.{change_init, set_init};

use il_base::cil_values::{Init, Started};
use il_base::world_model::TypeExpr;
use il_base::{NoMemory, Seq};
use std::alloc::Global;

fn changed(ty: &TypeExpr, init: Init, x: Started) -> Started
    ensures { result ≡ change_init ty.now init x }
{
    if !x.typ.is_same(ty) {
        return x;
    }
    Started { typ: x.typ, init }
}

/// Notes how far the initializer of a closed type has come, where it was begun.
pub fn set_init(
    alloc: Global,
    ty: &TypeExpr,
    init: Init,
    inits: Seq<Started>,
) -> Result<Seq<Started>, NoMemory>
    ensures { IfOk result (λ noted. noted ≡ set_init ty.now init inits) }
{
    let mut noted = Seq::new(alloc);
    for x in inits.into_vec() {
        let x = changed(ty, init, x);
        noted.push(x)?;
    }
    Ok(noted)
}
