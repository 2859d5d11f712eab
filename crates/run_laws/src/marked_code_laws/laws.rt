ghost use Rattle.run_laws.specs.marked_code_laws.Laws.{MarkedMethods};

/// A law: what a marked method's signature and body name is kept, where signatures and locals of marked methods have a reading, and
/// none names a member of reflection that marking doesn't follow. It does nothing.
pub fn marked_methods()
    ensures { MarkedMethods }
{}
