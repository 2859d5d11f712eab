//! The field or property of a name in a type or in its nearest base that has one.

ghost use Rattle.std.specs.Prelude.{◌≡◌, IfOk};
ghost use Rattle.std.specs.Option.{option_map};
ghost use Rattle.rules.specs.link_rules.Members.{with_bases};
ghost use Rattle.rules.specs.type_rules.Slots.{nearest};
ghost use Rattle.mark_parts.specs.mark_tables.Assemblies.{all_of, IsMarker};
ghost use Rattle.mark_items.specs.mark_named.Nearest.{member_in, sought, found_marks};

use crate::mark_named::fields::field_in;
use crate::mark_named::properties::property_in;
use il_base::NoMemory;
use il_base::world_model::TypeExpr;
use mark_parts::mark_tables::marker::Marker;
use rules::link_rules::RowAt;
use std::alloc::Global;
use virtual_calls::nearest::{base_of, type_count};

/// A field or a property, and the type in which it was found.
#[derive(Drop)]
pub struct Member {
    pub at: RowAt,
    pub of: TypeExpr,
}

/// The first field, or property, of a type with a name.
fn member_in(
    alloc: Global,
    marker: &Marker<'_>,
    field: bool,
    name: &[u8],
    ty: &TypeExpr,
) -> Result<Option<RowAt>, NoMemory>
    requires { IsMarker marker.now }
    ensures { IfOk result (λ found. found ≡ member_in (all_of marker.now) field name.now ty.now) }
{
    if field {
        return field_in(alloc, marker, name, ty);
    }
    property_in(alloc, marker, name, ty)
}

/// The first field, or property, with a name in a type or in its nearest base that has one.
pub(crate) fn nearest_member(
    alloc: Global,
    marker: &Marker<'_>,
    field: bool,
    name: &[u8],
    start: TypeExpr,
) -> Result<Option<Member>, NoMemory>
    requires { IsMarker marker.now }
    ensures { IfOk result (λ found. option_map (found_marks (all_of marker.now) field) found ≡ nearest (sought (all_of marker.now) field name.now) (with_bases (all_of marker.now) start)) }
{
    let count = type_count(&marker.tables)?;
    let mut ty = start;
    for _ in 0..count {
        match member_in(alloc, marker, field, name, &ty) {
            Ok(Some(at)) => return Ok(Some(Member { at, of: ty })),
            Ok(None) => {}
            Err(error) => return Err(error),
        }
        match base_of(alloc, &marker.tables, &ty) {
            Ok(Some(base)) => ty = base,
            Ok(None) => return Ok(None),
            Err(error) => return Err(error),
        }
    }
    Ok(None)
}
