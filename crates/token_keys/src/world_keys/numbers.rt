ghost use Rattle.std.specs.Prelude.{◌≡◌, IfOk};
ghost use Rattle.mark_parts.specs.mark_tables.Assemblies.{all_of, IsMarker};
ghost use Rattle.token_keys.specs.absent_types.References as refs;
ghost use Rattle.token_keys.specs.absent_types.References.{IsReferences};
ghost use Rattle.token_keys.specs.world_keys.Keys.{AreAllNumbers};

use crate::absent_types::references::References;
use crate::type_numbers::type_numbers;
use il_base::NoMemory;
use mark_parts::mark_tables::marker::Marker;
use merge_plan::moved_parts::NewTokens;
use std::alloc::Global;
use type_tables::member_search::counted::row_of;

/// The numbers of the types that the tokens of each assembly name, the core library's included.
pub fn all_numbers(
    alloc: Global,
    marker: &Marker<'_>,
    references: &References<'_>,
) -> Result<Vec<NewTokens>, NoMemory>
    requires marker { IsMarker marker.now }
    requires references { IsReferences references.now }
    requires same { refs.recs_of references.now ≡ all_of marker.now }
    ensures { IfOk result (λ numbers. AreAllNumbers (all_of marker.now) numbers.items) }
{
    let mut all = Vec::new(alloc);
    for k in 0..marker.tables.world.recs.len() {
        let place = row_of(k)?;
        match marker.assembly_at(place) {
            Some(asm) => {
                let numbers = type_numbers(alloc, &asm, references)?;
                all.push(numbers)?;
            }
            None => return Err(NoMemory),
        }
    }
    Ok(all)
}
