//! The facts that are known.

ghost use Rattle.std.specs.Prelude.{◌≡◌, IfOk};
ghost use Rattle.base_laws.specs.known_laws.Known.{is_known_at};
ghost use Rattle.mark_parts.specs.mark_facts.Kinds.{item_at};
ghost use Rattle.marking.specs.mark_known.Facts.{recs_in, knows, IsKnown};

use il_base::{Bits, Item, NoMemory};
use mark_numbers::numbers::Numbers;
use mark_parts::mark_facts::fact::Fact;
use mark_parts::mark_facts::kinds::Kind;
use mark_parts::mark_facts::rows::{item_at, row_of};
use mark_parts::mark_tables::marker::Marker;
use rules::link_rules::RowAt;
use virtual_calls::impls::same_row;
use virtual_calls::slots::Slots;

/// A world with its tables, and the facts that are known, by their numbers.
#[derive(Clone, Copy)]
pub struct Known<'a> {
    pub marker: &'a Marker<'a>,
    pub slots: &'a Slots,
    pub numbers: &'a Numbers<'a>,
    pub have: &'a Bits,
}

/// Whether an item is there and known to be marked.
fn is_known(k: &Known<'_>, item: Item) -> Result<bool, NoMemory>
    requires { IsKnown k.now }
    ensures { IfOk result (λ is. is ≡ knows k.now item) }
{
    match k.numbers.number_of(Fact::Marked(item)) {
        Ok(Some(n)) => Ok(k.have.has(n)),
        Ok(None) => Ok(false),
        Err(error) => Err(error),
    }
}

/// Whether an item is the one of a row, and is known to be marked.
fn is_known_item(k: &Known<'_>, item: Item, at: RowAt) -> Result<bool, NoMemory>
    requires { IsKnown k.now }
    ensures { IfOk result (λ is. is ≡ is_known_at (recs_in k.now) (knows k.now) item at) }
{
    let marker = k.marker;
    match row_of(marker.tables.world.recs.as_slice(), item) {
        Ok(Some(home)) => {
            if !same_row(at, home) {
                return Ok(false);
            }
            is_known(k, item)
        }
        Ok(None) => Ok(false),
        Err(error) => Err(error),
    }
}

/// Whether the item of a row is known to be marked.
pub(crate) fn is_known_row(k: &Known<'_>, kind: Kind, at: RowAt) -> Result<bool, NoMemory>
    requires { IsKnown k.now }
    ensures { IfOk result (λ is. is ≡ is_known_at (recs_in k.now) (knows k.now) (item_at (recs_in k.now) kind at) at) }
{
    let marker = k.marker;
    let item = item_at(marker.tables.world.recs.as_slice(), kind, at)?;
    is_known_item(k, item, at)
}
