//! The definitions of a type and of its bases (II.10.1).

ghost use Rattle.std.specs.Prelude.{◌≡◌, ◌++◌, IfOk, OnOk};
ghost use Rattle.std.specs.List.{flat_map};
ghost use Rattle.rules.specs.link_rules.Members.{with_bases};
ghost use Rattle.rules.specs.type_rules.Slots.{open_type};
ghost use Rattle.base_laws.specs.known_laws.Known.{lineage};
ghost use Rattle.mark_parts.specs.mark_tables.Assemblies.{all_of, IsMarker};
ghost use Rattle.marking.specs.mark_known.Facts.{homes};

use il_base::NoMemory;
use il_base::world_model::{AsmRec, TypeExpr};
use mark_parts::mark_facts::rows::type_at;
use mark_parts::mark_tables::marker::Marker;
use rules::link_rules::RowAt;
use std::alloc::Global;
use type_tables::member_search::bases::definition;
use virtual_calls::nearest::{base_of, type_count};

/// Adds the definition of a type, if it has one.
pub(crate) fn add_home(all: &[AsmRec], ty: &TypeExpr, rows: &mut Vec<RowAt>) -> Result<(), NoMemory>
    ensures { OnOk result (rows.new.items ≡ rows.old.items ++ homes all.now ty.now) }
{
    match definition(all, ty) {
        Ok(Some(at)) => {
            rows.push(at)?;
            Ok(())
        }
        Ok(None) => Ok(()),
        Err(error) => Err(error),
    }
}

/// The definitions of a type and of its bases.
fn definitions_from(
    alloc: Global,
    marker: &Marker<'_>,
    start: TypeExpr,
) -> Result<Vec<RowAt>, NoMemory>
    requires { IsMarker marker.now }
    ensures { IfOk result (λ rows. rows.items ≡ flat_map (homes (all_of marker.now)) (with_bases (all_of marker.now) start)) }
{
    let count = type_count(&marker.tables)?;
    let all = marker.tables.world.recs.as_slice();
    let mut rows = Vec::new(alloc);
    let mut ty = start;
    for _ in 0..count {
        add_home(all, &ty, &mut rows)?;
        match base_of(alloc, &marker.tables, &ty) {
            Ok(Some(base)) => ty = base,
            Ok(None) => return Ok(rows),
            Err(error) => return Err(error),
        }
    }
    Ok(rows)
}

/// A type definition with its own parameters left open.
fn open_type(all: &[AsmRec], at: RowAt) -> Result<TypeExpr, NoMemory>
    ensures { IfOk result (λ ty. ty ≡ open_type all.now at) }
{
    let id = type_at(all, at)?;
    Ok(TypeExpr::Def(id))
}

/// The definitions of a type and of its bases, the nearest first.
#[tactic(auto, unfolding(base_laws::specs::known_laws::Known::lineage))]
pub fn lineage(alloc: Global, marker: &Marker<'_>, t: RowAt) -> Result<Vec<RowAt>, NoMemory>
    requires { IsMarker marker.now }
    ensures { IfOk result (λ rows. rows.items ≡ lineage (all_of marker.now) t) }
{
    let open = open_type(marker.tables.world.recs.as_slice(), t)?;
    definitions_from(alloc, marker, open)
}
