//! A type and its bases, by their definitions.

ghost use Rattle.std.specs.Prelude.{◌≡◌, ◌++◌, IfOk, OnOk};
ghost use Rattle.std.specs.List.{flat_map};
ghost use Rattle.rules.specs.link_rules.Members.{with_bases};
ghost use Rattle.rules.specs.link_rules.Cycles.{listed, home_of};
ghost use Rattle.rules.specs.mark_rules.Members.{lineage};
ghost use Rattle.mark_parts.specs.mark_tables.Assemblies.{all_of, IsMarker};
ghost use Rattle.mark_members.specs.mark_kinds.Kinds.{homes};

use il_base::NoMemory;
use il_base::world_model::{AsmRec, TypeExpr};
use mark_parts::mark_facts::rows::type_at;
use mark_parts::mark_tables::marker::Marker;
use rules::link_rules::RowAt;
use std::alloc::Global;
use type_tables::member_search::bases::definition;
use virtual_calls::nearest::{base_of, type_count};

/// A type and its bases, the nearest first.
fn with_bases(
    alloc: Global,
    marker: &Marker<'_>,
    start: TypeExpr,
) -> Result<Vec<TypeExpr>, NoMemory>
    requires { IsMarker marker.now }
    ensures { IfOk result (λ types. types.items ≡ with_bases (all_of marker.now) start) }
{
    let count = type_count(&marker.tables)?;
    let mut types = Vec::new(alloc);
    let mut ty = start;
    for _ in 0..count {
        let base = base_of(alloc, &marker.tables, &ty)?;
        types.push(ty)?;
        match base {
            Some(base) => ty = base,
            None => return Ok(types),
        }
    }
    Ok(types)
}

/// Adds the definition of a type, where it has one.
fn add_home(all: &[AsmRec], ty: &TypeExpr, rows: &mut Vec<RowAt>) -> Result<(), NoMemory>
    ensures { OnOk result (rows.new.items ≡ rows.old.items ++ homes all.now ty.now) }
{
    match definition(all, ty) {
        Ok(Some(at)) => {
            rows.push(at)?;
            Ok(())
        }
        Ok(None) => Ok(()),
        Err(error) => Err(error),
    }
}

/// The definitions of types.
fn homes_of(alloc: Global, all: &[AsmRec], types: &[TypeExpr]) -> Result<Vec<RowAt>, NoMemory>
    ensures { IfOk result (λ rows. rows.items ≡ flat_map (homes all.now) types.now) }
{
    let mut rows = Vec::new(alloc);
    for ty in types {
        add_home(all, ty, &mut rows)?;
    }
    Ok(rows)
}

/// A type, and then its bases, the nearest first, by their definitions.
pub fn lineage(alloc: Global, marker: &Marker<'_>, at: RowAt) -> Result<Vec<RowAt>, NoMemory>
    requires { IsMarker marker.now }
    ensures { IfOk result (λ rows. rows.items ≡ lineage (all_of marker.now) at) }
{
    let all = marker.tables.world.recs.as_slice();
    let id = type_at(all, at)?;
    let types = with_bases(alloc, marker, TypeExpr::Def(id))?;
    let rows = homes_of(alloc, all, types.as_slice())?;
    Ok(rows)
}
