//! What values are read by, made once of a world.

ghost use Rattle.std.specs.Prelude.{◌≡◌, IfOk};
ghost use Rattle.mark_parts.specs.mark_tables.Assemblies.{all_of, IsMarker};
ghost use Rattle.attribute_values.specs.Tables.{AreEnums, AreAttributeTables};

use crate::enum_names::enums::enums_from;
use attr_blobs::EnumSize;
use il_base::{NoMemory, Seq};
use mark_parts::mark_tables::marker::Marker;
use resolver::type_links::TypeIndex;
use std::alloc::Global;
use type_names::TypeNames;
use type_tables::member_search::counted::row_of;

/// The types of a world by what tokens and texts say, and the enums that names find from each assembly.
#[derive(Drop)]
pub struct AttributeTables<'w> {
    pub index: TypeIndex<'w>,
    pub names: TypeNames<'w>,
    /// For each assembly, in order.
    pub enums: Vec<Seq<EnumSize>>,
}

/// The enums that names find from each of the first `count` assemblies.
fn enums_of_each(
    alloc: Global,
    marker: &Marker<'_>,
    names: &TypeNames<'_>,
    count: usize,
) -> Result<Vec<Seq<EnumSize>>, NoMemory>
    requires marker { IsMarker marker.now }
    requires names { names.now ≡ all_of marker.now }
    ensures { IfOk result (λ lists. AreEnums (all_of marker.now) lists.items) }
{
    let mut lists = Vec::new(alloc);
    for from in 0..count {
        let place = row_of(from)?;
        let enums = enums_from(alloc, marker, names, place)?;
        lists.push(enums)?;
    }
    Ok(lists)
}

impl<'w> AttributeTables<'w> {
    /// What is made once of a world.
    pub fn of(alloc: Global, marker: &Marker<'w>) -> Result<AttributeTables<'w>, NoMemory>
        requires { IsMarker marker.now }
        ensures { IfOk result (AreAttributeTables marker.now) }
    {
        let recs = marker.tables.world.recs.as_slice();
        let index = TypeIndex::of(alloc, recs)?;
        let names = TypeNames::of(alloc, recs)?;
        let enums = enums_of_each(alloc, marker, &names, recs.len())?;
        Ok(AttributeTables {
            index,
            names,
            enums,
        })
    }
}
