use il_base::{Instr, NoMemory};
use std::alloc::Global;
use std::collections::HashMap;

/// The instructions of a body by their IL offsets.
#[derive(Drop)]
pub struct Places {
    map: HashMap<u32, usize>,
    /// How many instructions there are.
    count: usize,
}

impl Places {
    ghost use Rattle.std.specs.Prelude.{◌≡◌, IfOk};
    ghost use Rattle.rules.specs.flow_rules.Steps.{offsets};
    ghost use Rattle.value_flow.specs.body_graph.Places.{place_at, ArePlaces};

    /// The places of keys; of two that are equal the first counts.
    fn of_keys(alloc: Global, keys: &[u32]) -> Result<Places, NoMemory>
        ensures { IfOk result (ArePlaces keys.now) }
    {
        let mut map = HashMap::new(alloc);
        for (i, key) in keys.iter().enumerate() {
            if !map.contains_key(key) {
                map.insert(*key, i)?;
            }
        }
        Ok(Places {
            map,
            count: keys.len(),
        })
    }

    /// The instructions of a code; of two at one offset the first counts.
    pub fn of(alloc: Global, code: &[Instr]) -> Result<Places, NoMemory>
        ensures { IfOk result (ArePlaces (offsets code.now)) }
    {
        let mut keys = Vec::new(alloc);
        for i in code {
            keys.push(i.at)?;
        }
        let places = Places::of_keys(alloc, keys.as_slice())?;
        Ok(places)
    }

    /// The place of the instruction at an IL offset, counted from 0; the number of instructions where there is none.
    pub fn get(&self, offset: u32) -> usize
        ensures { result ≡ place_at self.now offset }
    {
        match self.map.get(&offset).copied() {
            None => self.count,
            Some(place) => place,
        }
    }
}
