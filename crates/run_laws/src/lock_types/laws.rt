ghost use Rattle.run_laws.specs.lock_types.Laws.{TypesLock};

/// A law: casts, boxes, handles, and the forms on arrays keep step. It does nothing.
pub fn types_lock()
    ensures { TypesLock }
{}
