//! The members of the core library by their places in a world.

ghost use Rattle.std.specs.Prelude.{◌≡◌};
ghost use Rattle.rules.specs.view_rules.Members.{call_of, core_call};

use crate::world_core::calls::call_by;
use il_base::MethodId;
use il_base::cil_values::CoreCall;
use il_base::core_table::{OwnedMethod, core_kind};
use il_base::world_model::World;

fn call_of(m: OwnedMethod) -> Option<CoreCall>
    ensures { result ≡ call_of m }
{
    call_by(m.owner, m.method.name, m.method.params)
}

/// The member of the core library that a method of a world is. None for a method of an input, and for an abstract one.
pub fn core_call(world: &World, method: MethodId) -> Option<CoreCall>
    ensures { result ≡ core_call world.now.recs method.0 }
{
    match core_kind(world, method) {
        None => None,
        Some(kind) => match kind.member() {
            None => None,
            Some(member) => call_of(member),
        },
    }
}
