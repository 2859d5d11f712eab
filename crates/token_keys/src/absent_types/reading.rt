//! Whether two TypeRef rows read the same.

ghost use Rattle.std.specs.Prelude.{◌≡◌, IfOk};
ghost use Rattle.resolver.specs.type_links.Index.{IsIndex};
ghost use Rattle.rules.specs.merge_rules.Absent.{reads_same};
ghost use Rattle.token_keys.specs.absent_types.Named.{first_placed};

use crate::absent_types::named::Placed;
use crate::absent_types::scopes::{Step, row_step};
use il_base::NoMemory;
use resolver::type_links::TypeIndex;
use rules::link_rules::RowAt;
use std::alloc::Global;

/// Whether two TypeRef rows read the same, over at most `most` scopes.
pub(crate) fn reads_same(
    alloc: Global,
    index: &TypeIndex<'_>,
    most: usize,
    x: RowAt,
    y: RowAt,
) -> Result<bool, NoMemory>
    requires { IsIndex index.now }
    ensures { IfOk result (λ b. b ≡ reads_same index.now.all.now most x y) }
{
    let mut row = x;
    let mut other = y;
    for k in 0..most {
        match row_step(alloc, index, row, other) {
            Ok(Step::Decided(same)) => return Ok(same),
            Ok(Step::AsOuter(outer, around)) => {
                row = outer;
                other = around;
            }
            Err(error) => return Err(error),
        }
    }
    Ok(false)
}

/// The place of the first of these rows that reads the same as a row.
pub(crate) fn first_reading(
    alloc: Global,
    index: &TypeIndex<'_>,
    most: usize,
    at: RowAt,
    rows: &[Placed],
) -> Result<Option<u32>, NoMemory>
    requires { IsIndex index.now }
    ensures { IfOk result (λ place. place ≡ first_placed (reads_same index.now.all.now most at) rows.now) }
{
    for placed in rows {
        let reads = reads_same(alloc, index, most, at, placed.at)?;
        if reads {
            return Ok(Some(placed.place));
        }
    }
    Ok(None)
}
