//! Kept rows with their new numbers.

ghost use Rattle.std.specs.Prelude.{◌≡◌, ◌<◌, ◌≤◌, ◌+◌, length, IfOk};
ghost use Rattle.std.specs.List.{filter};
ghost use Rattle.rules.specs.merge_rules.Numbers.{new_row};
ghost use Rattle.rules.specs.merge_rules.Rows.{is_before, run_at};

use crate::keys::{Spot, places_of};
use crate::ranks::{count_before, ranks_of};
use il_base::NoMemory;
use rules::link_rules::RowAt;
use std::alloc::Global;
use std::collections::HashMap;
use std::marker::Model;
use type_tables::member_search::counted::row_of;

/// The rows of a table of the output, by their old places. Contracts see the list of these.
#[derive(Drop)]
pub struct Numbers {
    rows: Vec<RowAt>,
    places: HashMap<Spot, u32>,
    ranks: Vec<u64>,
}

impl Model for Numbers {
    ghost use Rattle.std.specs.Prelude.{List};
    ghost use Rattle.std.specs.Coded.{codes};
    ghost use Rattle.rules.specs.declared.link_rules.row_at.RowAt.{RowAt};
    ghost use Rattle.rules.specs.contracts.link_rules.row_at.RowAt as row_at;
    ghost use Rattle.merge_plan.specs.Keys.{ArePlaces};
    ghost use Rattle.merge_plan.specs.Ranks.{AreRanks};

    ghost Value = { List RowAt };

    ghost coded = { Prim.hlevel (codes, row_at.the_row.coded) };

    ghost view = { λ n. n.rows.items };

    ghost invariant = { λ n. ArePlaces n.rows.items n.places × AreRanks n.rows.items n.ranks.items };
}

impl Numbers {
    /// The rows in this order.
    pub fn of(alloc: Global, rows: Vec<RowAt>) -> Result<Numbers, NoMemory>
        ensures { IfOk result (λ n. n ≡ rows.items) }
    {
        let places = places_of(alloc, rows.as_slice())?;
        let ranks = ranks_of(alloc, rows.as_slice())?;
        Ok(Numbers {
            rows,
            places,
            ranks,
        })
    }

    /// The rows.
    pub fn rows(&self) -> &[RowAt]
        ensures { result.now ≡ self.now }
    {
        self.rows.as_slice()
    }

    /// The new row, from 0, of a row; None for a row that isn't kept.
    pub fn new_row(&self, at: RowAt) -> Option<u32>
        ensures { result ≡ new_row self.now at }
    {
        let spot = Spot {
            asm: at.asm,
            row: at.row,
        };
        self.places.get(&spot).copied()
    }

    /// The new row at which a run begins or ends, by its old row, from 1, of an assembly: after the kept rows that are before the
    /// old one.
    #[tactic(auto, unfolding(rules::specs::merge_rules::Rows::run_at))]
    pub fn run_at(&self, asm: u32, row: u32) -> Result<u32, NoMemory>
        ensures { IfOk result (λ r. r ≡ run_at self.now asm row) }
    {
        let ranks = self.ranks.as_slice();
        let before = count_before(self.rows.as_slice(), ranks, asm, row.saturating_sub(1));
        match before.checked_add(1) {
            Some(first) => row_of(first),
            None => Err(NoMemory),
        }
    }
}
