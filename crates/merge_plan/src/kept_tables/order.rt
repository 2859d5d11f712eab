//! Rows in the order of a key.

ghost use Rattle.std.specs.Prelude.{◌≡◌, map, IfOk};
ghost use Rattle.rules.specs.merge_rules.Rows.{in_order};
ghost use Rattle.merge_plan.specs.kept_tables.Order.{key_of, sorted_of};

use il_base::NoMemory;
use rules::link_rules::RowAt;

/// A row with the new token by which its table is sorted.
#[derive(Clone, Copy, Debug, PartialEq, Eq)]
pub struct SortedRow {
    pub at: RowAt,
    /// The new token of the row that it belongs to.
    pub owner: u32,
    /// The key by which it is sorted.
    pub key: u64,
}

/// The rows in the order of their keys, those of one key in the order in which they were.
pub(crate) fn in_order(mut rows: Vec<SortedRow>) -> Result<Vec<SortedRow>, NoMemory>
    ensures { IfOk result (λ sorted. map sorted_of sorted.items ≡ in_order (map sorted_of rows.items)) }
{
    rows.sort_by_key(|row| row.key)?;
    Ok(rows)
}
