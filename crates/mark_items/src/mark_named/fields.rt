//! Fields of a type by name.

ghost use Rattle.std.specs.Prelude.{◌≡◌, IfOk};
ghost use Rattle.std.specs.List.{filter};
ghost use Rattle.rules.specs.mark_rules.Attributes.{is_field_named, fields_named_in, head_of};
ghost use Rattle.mark_parts.specs.mark_tables.Assemblies.{all_of, IsMarker};

use il_base::NoMemory;
use il_base::world_model::{AsmRec, TypeExpr};
use mark_parts::mark_rows::members::fields_of_type;
use mark_parts::mark_tables::marker::Marker;
use rules::link_rules::RowAt;
use std::alloc::Global;
use type_tables::member_search::bases::definition;

/// Whether a field is there, and has this name.
pub fn is_field_named(all: &[AsmRec], name: &[u8], at: RowAt) -> bool
    ensures { result ≡ is_field_named all.now name.now at }
{
    match all.get(at.asm as usize) {
        None => false,
        Some(rec) => match rec.field.get(at.row as usize) {
            None => false,
            Some(f) => f.name.as_slice() == name,
        },
    }
}

/// The first of these fields that has this name.
fn first_named(all: &[AsmRec], name: &[u8], rows: &[RowAt]) -> Option<RowAt>
    ensures { result ≡ head_of (filter (is_field_named all.now name.now) rows.now) }
{
    for at in rows {
        if is_field_named(all, name, *at) {
            return Some(*at);
        }
    }
    None
}

/// The first field of a type's definition that has this name.
#[tactic(auto, using(crate::proofs::lemmas::mark_named::Lists::none_more))]
pub(crate) fn field_in(
    alloc: Global,
    marker: &Marker<'_>,
    name: &[u8],
    ty: &TypeExpr,
) -> Result<Option<RowAt>, NoMemory>
    requires { IsMarker marker.now }
    ensures { IfOk result (λ found. found ≡ head_of (fields_named_in (all_of marker.now) name.now ty.now)) }
{
    let all = marker.tables.world.recs.as_slice();
    let Some(home) = definition(all, ty)? else {
        return Ok(None);
    };
    let rows = fields_of_type(alloc, marker, home)?;
    Ok(first_named(all, name, rows.as_slice()))
}
