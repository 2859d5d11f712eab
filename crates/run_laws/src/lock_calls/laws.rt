ghost use Rattle.run_laws.specs.lock_calls.Laws.{CallsLock};

/// A law: `call`, `callvirt`, `newobj`, prefixes and `ret` keep step. It does nothing.
pub fn calls_lock()
    ensures { CallsLock }
{}
