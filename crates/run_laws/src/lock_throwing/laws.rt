ghost use Rattle.run_laws.specs.lock_throwing.Laws.{ThrowsLock};

/// A law: `throw`, `rethrow`, `leave` and `endfinally` keep step, and so does every raise of an exception. It does nothing.
pub fn throws_lock()
    ensures { ThrowsLock }
{}
