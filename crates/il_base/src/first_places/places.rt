ghost use Rattle.std.specs.Prelude.{◌≡◌, IfOk};

use crate::NoMemory;
use crate::first_places::near::{near_at, near_count, near_places};
use std::alloc::Global;
use std::collections::HashMap;

/// Where each key stands first in a list of keys, counted from 0.
#[derive(Drop)]
pub struct Places {
    map: HashMap<u32, usize>,
    /// What the map has for the numbers from 0 on, so that IL offsets are looked up by an index.
    near: Vec<Option<usize>>,
}

impl Places {
    ghost use Rattle.il_base.specs.first_places.Places.{place_in, AreFirst};

    /// The places of these keys.
    pub fn of(alloc: Global, keys: &[u32]) -> Result<Places, NoMemory>
        ensures { IfOk result (AreFirst keys.now) }
    {
        let mut map = HashMap::new(alloc);
        for (i, key) in keys.iter().enumerate() {
            if !map.contains_key(key) {
                map.insert(*key, i)?;
            }
        }
        let near = near_places(alloc, &map, near_count(keys))?;
        Ok(Places { map, near })
    }

    /// The first place of a key, None where it isn't in the list.
    pub fn get(&self, key: u32) -> Option<usize>
        ensures { result ≡ place_in self.now key }
    {
        match near_at(self.near.as_slice(), key) {
            Some(found) => found,
            None => self.map.get(&key).copied(),
        }
    }
}
