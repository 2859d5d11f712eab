//! The place of each row in a list, by the row.

ghost use Rattle.std.specs.Prelude.{◌≡◌, ℕ, OnOk, IfOk};
ghost use Rattle.std.specs.HashMap.{get};
ghost use Rattle.merge_plan.specs.Keys.{same_spot, KeepsFirst, ArePlaces};

use il_base::NoMemory;
use rules::link_rules::RowAt;
use std::alloc::Global;
use std::collections::HashMap;
use type_tables::member_search::counted::row_of;

/// A row as a key.
#[derive(Clone, Copy, PartialEq, Eq, Hash)]
pub(crate) struct Spot {
    pub(crate) asm: u32,
    pub(crate) row: u32,
}

/// Puts a place under a row that has none; a row's first place stays.
fn keep_first(map: &mut HashMap<Spot, u32>, spot: Spot, place: u32) -> Result<(), NoMemory>
    ensures { OnOk result (KeepsFirst map.old spot place map.new) }
{
    if !map.contains_key(&spot) {
        map.insert(spot, place)?;
    }
    Ok(())
}

/// The first place, from 0, of each row.
pub(crate) fn places_of(alloc: Global, rows: &[RowAt]) -> Result<HashMap<Spot, u32>, NoMemory>
    ensures { IfOk result (ArePlaces rows.now) }
{
    let mut places = HashMap::new(alloc);
    for (i, at) in rows.iter().enumerate() {
        let place = row_of(i)?;
        let spot = Spot {
            asm: at.asm,
            row: at.row,
        };
        keep_first(&mut places, spot, place)?;
    }
    Ok(places)
}
