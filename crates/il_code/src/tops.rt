ghost use Rattle.std.specs.Prelude.{◌≡◌, ◌<◌, ◌≤◌, ◌⊎◌, ℕ, [], ◌∷◌, OnOk};
ghost use Rattle.std.specs.List.{Contains};
ghost use Rattle.std.specs.List.Sorted.{IsPermutation};
ghost use Rattle.std.specs.Ordering.{nat_cmp, ordering_then};
ghost use Rattle.std.specs.BinaryHeap.{heap_items, IsHeap};
ghost use Rattle.std.proofs.Props.{props};

use il_base::NoMemory;
use std::alloc::Global;
use std::collections::BinaryHeap;

/// Numbers, each with the end of its block.
#[derive(Drop)]
pub struct Tops {
    heap: BinaryHeap<(u64, u64)>,
    ghost ordered: { IsHeap (λ x y. ordering_then (nat_cmp x.0 y.0) (nat_cmp x.1 y.1)) (heap_items heap) } by { Prim.hlevel props },
}

impl Tops {
    pub fn new(alloc: Global) -> Tops
        ensures { heap_items result.heap ≡ [] }
    {
        Tops {
            heap: BinaryHeap::new(alloc),
        }
    }

    pub fn add(&mut self, number: u64, end: u64) -> Result<(), NoMemory>
        ensures { OnOk result (IsPermutation ((number, end) ∷ heap_items self.old.heap) (heap_items self.new.heap)) }
    {
        self.heap.push((number, end))?;
        Ok(())
    }

    /// The greatest number whose block ends after a place, or 0. Numbers of blocks that end at the place or before it
    /// may go.
    pub fn greatest(&mut self, place: u64) -> u64
        ensures kept { (x : ℕ × ℕ) → Contains (heap_items self.old.heap) x → place < x.1 → Contains (heap_items self.new.heap) x }
        ensures old { (x : ℕ × ℕ) → Contains (heap_items self.new.heap) x → Contains (heap_items self.old.heap) x }
        ensures bound { (x : ℕ × ℕ) → Contains (heap_items self.new.heap) x → x.0 ≤ result }
        ensures is { (result ≡ 0) ⊎ ((x : ℕ × ℕ) × Contains (heap_items self.new.heap) x × (place < x.1) × (x.0 ≡ result)) }
    {
        while let Some((number, end)) = self.heap.peek().copied() {
            if place < end {
                return number;
            }
            self.heap.pop();
        }
        0
    }
}
