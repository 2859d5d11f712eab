ghost use Rattle.run_laws.specs.lock_numbers.Laws.{NumbersLock};

/// A law: the forms on numbers, and the branches, keep step. It does nothing.
pub fn numbers_lock()
    ensures { NumbersLock }
{}
