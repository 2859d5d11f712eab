//! A type definition of a row.

ghost use Rattle.std.specs.Prelude.{◌≡◌, IfOk};
ghost use Rattle.mark_parts.specs.mark_tables.Assemblies.{all_of, IsMarker};
ghost use Rattle.rules.specs.view_rules.Methods.{head_at};
ghost use Rattle.cil_world.specs.world_definitions.Types.{AreParamsAt, around_at, maker_at, starts_at};

use crate::world_methods::signatures::type_place;
use il_base::NoMemory;
use il_base::cil_values::Head;
use mark_parts::mark_rows::initializers::initializer;
use mark_parts::mark_rows::makers::maker;
use mark_parts::mark_tables::marker::Marker;
use rules::link_rules::RowAt;
use rules::view_rules::seen_flags;
use std::alloc::Global;
use type_tables::member_search::params::{ParamCounts, param_count};
use type_tables::methods::method_id;

/// The head of a type in a row of an assembly.
pub(crate) fn head_at(
    marker: &Marker<'_>,
    params: &ParamCounts,
    at: RowAt,
) -> Result<Option<Head>, NoMemory>
    requires is { IsMarker marker.now }
    requires params { AreParamsAt (all_of marker.now) at.asm params.now }
    ensures { IfOk result (λ head. head ≡ head_at (all_of marker.now) at) }
{
    let Some(asm) = marker.assembly_at(at.asm) else {
        return Ok(None);
    };
    let rec = asm.scope.rec;
    let Some(t) = rec.type_def.get(at.row as usize) else {
        return Ok(None);
    };
    let params = param_count(rec, params, at.row)?;
    Ok(Some(Head {
        flags: t.flags & seen_flags::TYPE,
        params,
    }))
}

/// The number of parameters of each type of an assembly.
pub(crate) fn params_at(
    alloc: Global,
    marker: &Marker<'_>,
    asm: u32,
) -> Result<ParamCounts, NoMemory>
    requires { IsMarker marker.now }
    ensures { IfOk result (AreParamsAt (all_of marker.now) asm) }
{
    match marker.assembly_at(asm) {
        // No caller asks for an assembly that isn't there.
        None => Err(NoMemory),
        Some(asm) => ParamCounts::of(alloc, asm.scope.rec),
    }
}

/// The initializer of a type in a row of an assembly, by its place in the world.
pub(crate) fn starts_at(
    alloc: Global,
    marker: &Marker<'_>,
    at: RowAt,
) -> Result<Option<u32>, NoMemory>
    requires { IsMarker marker.now }
    ensures { IfOk result (λ m. m ≡ starts_at (all_of marker.now) at) }
{
    match initializer(alloc, marker, at) {
        Err(error) => Err(error),
        Ok(None) => Ok(None),
        Ok(Some(found)) => {
            let id = method_id(marker.tables.world.recs.as_slice(), found)?;
            Ok(Some(id.0))
        }
    }
}

/// The constructor by which reflection makes objects of a type in a row of an assembly, by its place in the world.
pub(crate) fn maker_at(
    alloc: Global,
    marker: &Marker<'_>,
    at: RowAt,
) -> Result<Option<u32>, NoMemory>
    requires { IsMarker marker.now }
    ensures { IfOk result (λ m. m ≡ maker_at (all_of marker.now) at) }
{
    match maker(alloc, marker, at) {
        Err(error) => Err(error),
        Ok(None) => Ok(None),
        Ok(Some(found)) => {
            let id = method_id(marker.tables.world.recs.as_slice(), found)?;
            Ok(Some(id.0))
        }
    }
}

/// The type that the type in a row of an assembly is nested in, by its place in the world.
pub(crate) fn around_at(marker: &Marker<'_>, at: RowAt) -> Result<Option<u32>, NoMemory>
    requires { IsMarker marker.now }
    ensures { IfOk result (λ t. t ≡ around_at (all_of marker.now) at) }
{
    let Some(asm) = marker.assembly_at(at.asm) else {
        return Ok(None);
    };
    match asm.encloser(at.row) {
        Err(error) => Err(error),
        Ok(None) => Ok(None),
        Ok(Some(row)) => {
            let around = RowAt { asm: at.asm, row };
            let place = type_place(marker.tables.world.recs.as_slice(), around)?;
            Ok(Some(place))
        }
    }
}
