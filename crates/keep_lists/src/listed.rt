//! An assembly whose kept items are listed.

ghost use Rattle.std.specs.Prelude.{◌≡◌, IfOk};
ghost use Rattle.rules.specs.link_rules.Types.{at_row};
ghost use Rattle.mark_parts.specs.mark_facts.Kinds.{item_at};
ghost use Rattle.keep_lists.specs.Lists.{recs_in, place_in, kept_in};

use il_base::NoMemory;
use mark_parts::mark_facts::kinds::Kind;
use mark_parts::mark_facts::rows::item_at;
use mark_parts::mark_tables::assembly::Assembly;
use mark_parts::mark_tables::marker::Marker;
use merge_plan::KeptItems;
use rules::link_rules::RowAt;

/// An assembly of a world, with the kept items.
#[derive(Clone, Copy)]
pub(crate) struct Listed<'a> {
    pub(crate) marker: &'a Marker<'a>,
    pub(crate) asm: Assembly<'a>,
    pub(crate) kept: &'a KeptItems,
}

/// Whether the item of a kind in a row, from 0, is kept.
pub(crate) fn keeps(s: &Listed<'_>, kind: Kind, row: u32) -> Result<bool, NoMemory>
    ensures { IfOk result (λ is. is ≡ kept_in s.now (item_at (recs_in s.now) kind (at_row (place_in s.now) row))) }
{
    let at = RowAt {
        asm: s.asm.scope.asm,
        row,
    };
    let item = item_at(s.asm.scope.linked.all, kind, at)?;
    Ok(s.kept.has(item))
}
