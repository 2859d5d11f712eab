ghost use Rattle.run_laws.specs.lock_frames.Laws.{FramesLock};

/// A law: methods are entered, initializers begin and virtual calls are dispatched alike. It does nothing.
pub fn frames_lock()
    ensures { FramesLock }
{}
