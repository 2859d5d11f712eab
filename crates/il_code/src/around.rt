ghost use Rattle.std.specs.Prelude.{◌≡◌, ◌≤◌, ◌+◌, ℕ, List, length, Some, OnOk};
ghost use Rattle.std.specs.List.{slice_get};
ghost use Rattle.il_code.specs.Around.{HasBegun, IsAround};
ghost use Rattle.il_code.specs.declared.blocks.Block.{Block};

use crate::blocks::Block;
use crate::tops::Tops;
use il_base::NoMemory;
use std::alloc::Global;

/// What is around a place, of the blocks that have begun and end after it.
#[derive(Clone, Copy)]
pub struct Around {
    /// The greatest of their first bytes, or 0.
    pub from: u64,
    /// The least of their ends, or `u64::MAX`.
    pub to: u64,
    /// The least clause of the try blocks among them, counted from 0, or `u64::MAX`.
    pub clause: u64,
}

/// The blocks that have begun, by their first bytes, their ends and their clauses.
#[derive(Drop)]
pub struct Begun {
    starts: Tops,
    ends: Tops,
    clauses: Tops,
}

impl Begun {
    pub fn new(alloc: Global) -> Begun
        ensures { (blocks : List Block) (place : ℕ) → HasBegun blocks 0 place result }
    {
        Begun {
            starts: Tops::new(alloc),
            ends: Tops::new(alloc),
            clauses: Tops::new(alloc),
        }
    }

    /// One block more has begun.
    fn add(&mut self, b: Block) -> Result<(), NoMemory>
        ensures { OnOk result ((blocks : List Block) (n place : ℕ) → slice_get blocks n ≡ Some b → HasBegun blocks n place self.old → HasBegun blocks (n + 1) place self.new) }
    {
        self.starts.add(b.range.from, b.range.to)?;
        self.ends.add(u64::MAX - b.range.to, b.range.to)?;
        let clause = if b.is_try {
            u64::MAX - b.clause as u64
        } else {
            0
        };
        self.clauses.add(clause, b.range.to)
    }

    /// The blocks from number `from` on, up to number `to`, have begun too.
    pub fn add_all(&mut self, blocks: &[Block], from: usize, to: usize) -> Result<(), NoMemory>
        requires order { from ≤ to }
        requires within { to ≤ length blocks.now }
        ensures { OnOk result ((place : ℕ) → HasBegun blocks.now from place self.old → HasBegun blocks.now to place self.new) }
    {
        for b in &blocks[from..to] {
            self.add(*b)?;
        }
        Ok(())
    }

    /// What is around a place.
    pub fn around(&mut self, place: u64) -> Around
        ensures begun { (blocks : List Block) (n : ℕ) → HasBegun blocks n place self.old → HasBegun blocks n place self.new }
        ensures around { (blocks : List Block) (n : ℕ) → HasBegun blocks n place self.old → IsAround blocks n place result }
    {
        Around {
            from: self.starts.greatest(place),
            to: u64::MAX - self.ends.greatest(place),
            clause: u64::MAX - self.clauses.greatest(place),
        }
    }
}
