ghost use Rattle.run_laws.specs.lock_members.Laws.{MembersLock};

/// A law: a call of each member of the core library that searches for nothing keeps step. It does nothing.
pub fn members_lock()
    ensures { MembersLock }
{}
