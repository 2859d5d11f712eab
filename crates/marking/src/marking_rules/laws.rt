ghost use Rattle.marking.specs.marking_rules.Laws.{ListsBring, JoinedMore};

use base_laws::known_laws::laws::tries_enough;

/// A law: the two lists have exactly the facts that follow from the fact with a number, alone or with known ones. Where more is
/// known, the second has no less.
pub fn lists_bring()
    ensures bring { ListsBring }
    ensures more { JoinedMore }
{
    tries_enough();
}
