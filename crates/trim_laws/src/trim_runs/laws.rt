ghost use Rattle.trim_laws.specs.trim_runs.Laws.{TrimsRun};
ghost use Rattle.trim_laws.specs.trim_runs.Entry.{EntryMoves, ProgramsRun};

use crate::trim_moves::laws::left_is_record;

/// A law: what a merge leaves runs as its inputs do, where exactly what is marked is kept and marking follows what that names. It does
/// nothing.
pub fn trims_run()
    ensures { TrimsRun }
{
    left_is_record();
}

/// A law: the entry token of what is left names the entry method of the inputs, moved. It does nothing.
pub fn entry_moves()
    ensures { EntryMoves }
{}

/// A law: so the program that is left runs as that of the inputs. It does nothing.
pub fn programs_run()
    ensures { ProgramsRun }
{
    left_is_record();
}
