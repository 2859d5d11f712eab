ghost use Rattle.run_laws.specs.dispatch_laws.Laws.{ClassRunsMove, InterfaceRunsMove, AnswersMove};

/// A law: what a kept class slot is answered with in a kept type moves with it, where it is kept. It does nothing.
pub fn class_runs_move()
    ensures { ClassRunsMove }
{}

/// A law: what a kept interface slot is answered with in a kept type moves with it, where it is kept and the type chooses the same
/// interface instance. It does nothing.
pub fn interface_runs_move()
    ensures { InterfaceRunsMove }
{}

/// A law: what a virtual call of a kept method runs for a kept type, and the type in which it is found, move with them, where what
/// is found is kept. It does nothing.
pub fn answers_move()
    ensures { AnswersMove }
{}
