ghost use Rattle.run_laws.specs.marked_call_laws.Laws.{MarkedRuns, MarkedFinds};

/// A law: the method that a virtual call of a marked method runs is marked. It does nothing.
pub fn marked_runs()
    ensures { MarkedRuns }
{}

/// A law: what the search for a marked slot of an interface finds first is marked. It does nothing.
pub fn marked_finds()
    ensures { MarkedFinds }
{}
