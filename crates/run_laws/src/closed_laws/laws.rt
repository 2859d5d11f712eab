ghost use Rattle.run_laws.specs.closed_laws.Laws.{MarkedClosed, MarkedReads, MarkedFollows, RecordsSound, MarkedTrimsRun};

/// A law: where the marked set is kept, all that a step of a kept method can reach is kept. It does nothing.
pub fn marked_closed()
    ensures { MarkedClosed }
{}

/// A law: signatures and locals of marked methods with bodies have a reading where no marked item is bad. It does nothing.
pub fn marked_reads()
    ensures { MarkedReads }
{}

/// A law: no marked method names a member of reflection that marking doesn't follow, where no trim would say `not yet`. It does
/// nothing.
pub fn marked_follows()
    ensures { MarkedFollows }
{}

/// A law: runs of members stand apart in inputs that are records, as those of files are. It does nothing.
pub fn records_sound()
    ensures { RecordsSound }
{}

/// A law: outputs that have the rows of what is marked in the inputs run as these do. It does nothing.
pub fn marked_trims_run()
    ensures { MarkedTrimsRun }
{}
