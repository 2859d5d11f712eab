ghost use Rattle.run_laws.specs.lock_words.Laws.{SlotsLock, MadeStay, BegunStay};

/// A law: the forms on arguments, locals, constants and the stack keep step. It does nothing.
pub fn slots_lock()
    ensures { SlotsLock }
{}

/// A law: a type of which there can be objects whatever is put in is one with arguments put in and without modifiers, and a type
/// whose initializer an access can begin stays one. It does nothing.
pub fn closed_types_stay()
    ensures made { MadeStay }
    ensures begun { BegunStay }
{}
