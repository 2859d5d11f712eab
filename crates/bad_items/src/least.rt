//! The least of flaws.

ghost use Rattle.std.specs.Prelude.{◌≡◌, None, map};
ghost use Rattle.std.specs.Option.{option_map};
ghost use Rattle.rules.specs.mark_rules.BadItems.{rank, before};
ghost use Rattle.bad_items.specs.mark_flaws.Told.{flaw_told};
ghost use Rattle.base_laws.specs.flaw_laws.Listed.{earlier, first_from};
ghost use Rattle.bad_items.specs.Rows.{before_in_row};

use crate::mark_flaws::flaw::Flaw;
use il_base::world_model::BadKind;

/// The place of a kind in the order of kinds.
fn rank(kind: BadKind) -> u32
    ensures { result ≡ rank kind }
{
    match kind {
        BadKind::Unresolved => 0,
        BadKind::Outside(what) => u32::from(what) + 1,
        BadKind::Over { .. } => 257,
    }
}

/// Whether a flaw comes before another, of one assembly and one row.
fn is_before_in_row(x: Flaw, y: Flaw) -> bool
    ensures { result ≡ before_in_row (flaw_told x) (flaw_told y) }
{
    x.offset < y.offset || x.offset == y.offset && rank(x.kind) < rank(y.kind)
}

/// Whether a flaw comes before another: by assembly, token, offset and kind.
fn is_before(x: Flaw, y: Flaw) -> bool
    ensures { result ≡ before (flaw_told x) (flaw_told y) }
{
    x.asm < y.asm
        || x.asm == y.asm && (x.token < y.token || x.token == y.token && is_before_in_row(x, y))
}

/// The earlier of what was met and one more.
fn earlier(best: Option<Flaw>, flaw: Flaw) -> Option<Flaw>
    ensures { option_map flaw_told result ≡ earlier (option_map flaw_told best) (flaw_told flaw) }
{
    match best {
        None => Some(flaw),
        Some(met) => {
            if is_before(flaw, met) {
                Some(flaw)
            } else {
                Some(met)
            }
        }
    }
}

/// The least of these; of those at one place the first.
#[tactic(auto, unfolding(base_laws::specs::flaw_laws::Listed::first_from))]
pub(crate) fn least_of(flaws: &[Flaw]) -> Option<Flaw>
    ensures { option_map flaw_told result ≡ first_from None (map flaw_told flaws.now) }
{
    let mut best = None;
    for flaw in flaws {
        best = earlier(best, *flaw);
    }
    best
}
