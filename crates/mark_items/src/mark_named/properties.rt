//! Properties of a type by name.

ghost use Rattle.std.specs.Prelude.{◌≡◌, IfOk};
ghost use Rattle.std.specs.List.{filter};
ghost use Rattle.rules.specs.mark_rules.Attributes.{is_property_called, properties_called_in, head_of};
ghost use Rattle.mark_parts.specs.mark_tables.Assemblies.{all_of, IsMarker};

use il_base::NoMemory;
use il_base::world_model::{AsmRec, TypeExpr};
use mark_parts::mark_rows::members::properties_of_type;
use mark_parts::mark_tables::marker::Marker;
use rules::link_rules::RowAt;
use std::alloc::Global;
use type_tables::member_search::bases::definition;

/// Whether a property is there, and has this name.
pub fn is_property_called(all: &[AsmRec], name: &[u8], at: RowAt) -> bool
    ensures { result ≡ is_property_called all.now name.now at }
{
    match all.get(at.asm as usize) {
        None => false,
        Some(rec) => match rec.property.get(at.row as usize) {
            None => false,
            Some(p) => p.name.as_slice() == name,
        },
    }
}

/// The first of these properties that has this name.
fn first_called(all: &[AsmRec], name: &[u8], rows: &[RowAt]) -> Option<RowAt>
    ensures { result ≡ head_of (filter (is_property_called all.now name.now) rows.now) }
{
    for at in rows {
        if is_property_called(all, name, *at) {
            return Some(*at);
        }
    }
    None
}

/// The first property of a type's definition that has this name.
#[tactic(auto, using(crate::proofs::lemmas::mark_named::Lists::none_more))]
pub(crate) fn property_in(
    alloc: Global,
    marker: &Marker<'_>,
    name: &[u8],
    ty: &TypeExpr,
) -> Result<Option<RowAt>, NoMemory>
    requires { IsMarker marker.now }
    ensures { IfOk result (λ found. found ≡ head_of (properties_called_in (all_of marker.now) name.now ty.now)) }
{
    let all = marker.tables.world.recs.as_slice();
    let Some(home) = definition(all, ty)? else {
        return Ok(None);
    };
    let rows = properties_of_type(alloc, marker, home)?;
    Ok(first_called(all, name, rows.as_slice()))
}
