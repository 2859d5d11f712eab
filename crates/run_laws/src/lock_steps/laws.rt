ghost use Rattle.run_laws.specs.lock_steps.Laws.{StepLocks, RunMoves, RunFromMoves};

/// A law: a step keeps step. It does nothing.
pub fn steps_lock()
    ensures { StepLocks }
{}

/// A law: any number of steps from a moved state is the moved run, and so is a whole run from an entry point that is kept. It does
/// nothing.
pub fn runs_lock()
    ensures steps { RunMoves }
    ensures entry { RunFromMoves }
{}
