ghost use Rattle.merge_laws.specs.merged_places.Laws.{LeadBack, MovesPlaces, StayApart};

/// A law: each new number of a merge is led back to the number that it is of, so that no two become one. It does nothing.
pub fn undone()
    ensures { LeadBack }
{}

/// A law: the numbers and the places of kept rows go together in a merge. It does nothing.
pub fn places_move()
    ensures { MovesPlaces }
{}

/// A law: two rows of types or of methods stand at one place of the output exactly where they are one. It does nothing.
pub fn rows_apart()
    ensures { StayApart }
{}
