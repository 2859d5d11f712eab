ghost use Rattle.run_laws.specs.agree_laws.Laws.{TrimmedAgrees, TrimmedRuns};

/// A law: where a world of files that link has the kept rows of another, and what kept rows lead to is kept, both answer a step
/// alike. It does nothing.
pub fn trimmed_agrees()
    ensures { TrimmedAgrees }
{}

/// A law: then a run of any number of steps from a kept entry, with any input, prints and ends in the one as in the other. It does
/// nothing.
pub fn trimmed_runs()
    ensures { TrimmedRuns }
{}
