//! Look-ups by an index, for keys that lie close together.

ghost use Rattle.std.specs.Prelude.{◌≡◌, nat_eq, slice_get, IfOk};
ghost use Rattle.std.specs.HashMap.{get};
ghost use Rattle.il_base.specs.first_places.Near.{AgreesWith};

use crate::NoMemory;
use std::alloc::Global;
use std::collections::HashMap;

/// The most numbers in a table, for each key.
const MOST_FOR_EACH: usize = 8;

/// How many numbers the table has: all up to the greatest key, or none where keys lie far apart.
pub(crate) fn near_count(keys: &[u32]) -> u32 {
    let mut most: u32 = 0;
    for key in keys {
        most = most.max(*key);
    }
    let count = most.saturating_add(1);
    if count as usize > keys.len().saturating_mul(MOST_FOR_EACH) {
        return 0;
    }
    count
}

/// What a map has for each number below `count`.
#[tactic(auto, using(crate::proofs::lemmas::first_places::Growing::near_push))]
pub(crate) fn near_places(
    alloc: Global,
    map: &HashMap<u32, usize>,
    count: u32,
) -> Result<Vec<Option<usize>>, NoMemory>
    ensures { IfOk result (λ near. AgreesWith (get nat_eq map.now) near.items) }
{
    let mut near = Vec::new(alloc);
    for key in 0..count {
        near.push(map.get(&key).copied())?;
    }
    Ok(near)
}

/// What a table has for a number; None past its end.
pub(crate) fn near_at(near: &[Option<usize>], key: u32) -> Option<Option<usize>>
    ensures { result ≡ slice_get near.now key }
{
    near.get(key as usize).copied()
}
