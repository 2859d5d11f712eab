ghost use Rattle.run_laws.specs.lock_places.Laws.{IndirectLock};

/// A law: places are read and written alike, and loads and stores through pointers keep step. It does nothing.
pub fn indirect_lock()
    ensures { IndirectLock }
{}
