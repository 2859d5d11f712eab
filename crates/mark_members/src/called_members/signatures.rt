//! The signatures of methods.

ghost use Rattle.std.specs.Prelude.{◌≡◌, IfOk};
ghost use Rattle.rules.specs.link_rules.Cycles.{listed};
ghost use Rattle.rules.specs.type_rules.Slots.{type_of_row};
ghost use Rattle.rules.specs.mark_rules.Dependencies.{good_signatures};
ghost use Rattle.mark_parts.specs.mark_tables.Assemblies.{all_of, IsMarker};

use il_base::NoMemory;
use il_base::world_model::Known;
use mark_parts::mark_tables::marker::Marker;
use rules::link_rules::{MethodType, RowAt};
use std::alloc::Global;
use type_tables::methods::method_type_at;

/// The signature of a method with types, where it has a good one.
pub fn good_signature(
    alloc: Global,
    marker: &Marker<'_>,
    at: RowAt,
) -> Result<Option<MethodType>, NoMemory>
    requires { IsMarker marker.now }
    ensures { IfOk result (λ ty. listed ty ≡ good_signatures (type_of_row (all_of marker.now) at)) }
{
    match method_type_at(alloc, &marker.tables, at) {
        Ok(Some(Known::Good(ty))) => Ok(Some(ty)),
        Ok(Some(Known::Bad(_))) => Ok(None),
        Ok(None) => Ok(None),
        Err(error) => Err(error),
    }
}
