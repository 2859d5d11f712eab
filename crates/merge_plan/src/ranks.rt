//! How many of some rows are before another one.

ghost use Rattle.std.specs.Prelude.{◌≡◌, ◌+◌, ◌*◌, ◌<◌, ◌^◌, nat_lt, length, map, IfOk};
ghost use Rattle.std.specs.List.{filter};
ghost use Rattle.std.specs.List.Sorted.{IsNonDecreasing};
ghost use Rattle.rules.specs.merge_rules.Rows.{is_before};
ghost use Rattle.merge_plan.specs.Ranks.{order_of, AreOrders, AreRanks};

use il_base::NoMemory;
use rules::link_rules::RowAt;
use std::alloc::Global;

/// A row as one number: rows of an earlier assembly have smaller ones.
fn order_of(at: RowAt) -> u64
    ensures order { result ≡ order_of at }
    ensures fits { at.row < 2 ^ 32 }
{
    u64::from(at.asm) * 0x1_0000_0000 + u64::from(at.row)
}

fn orders_of(alloc: Global, rows: &[RowAt]) -> Result<Vec<u64>, NoMemory>
    ensures { IfOk result (λ orders. AreOrders rows.now orders.items) }
{
    let mut orders = Vec::new(alloc);
    for at in rows {
        orders.push(order_of(*at))?;
    }
    Ok(orders)
}

/// The numbers of rows, the smallest first.
pub(crate) fn ranks_of(alloc: Global, rows: &[RowAt]) -> Result<Vec<u64>, NoMemory>
    ensures { IfOk result (λ ranks. AreRanks rows.now ranks.items) }
{
    let mut ranks = orders_of(alloc, rows)?;
    ranks.sort_unstable();
    Ok(ranks)
}

/// How many of some numbers in order are less than another one.
fn count_below(ranks: &[u64], end: u64) -> usize
    requires { IsNonDecreasing ranks.now }
    ensures { result ≡ length (filter (λ rank. nat_lt rank end) ranks.now) }
{
    ranks.partition_point(|rank| *rank < end)
}

/// How many of some rows are before a row of an assembly, from 0. `ranks` has their numbers, the smallest first.
pub(crate) fn count_before(rows: &[RowAt], ranks: &[u64], asm: u32, row: u32) -> usize
    requires { AreRanks rows.now ranks.now }
    ensures { result ≡ length (filter (is_before asm row) rows.now) }
{
    let end = order_of(RowAt { asm, row });
    count_below(ranks, end)
}
