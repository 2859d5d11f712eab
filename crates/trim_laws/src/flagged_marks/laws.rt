ghost use Rattle.trim_laws.specs.flagged_marks.Laws.{FlagsFollow};

/// A law: flags that are exact where facts are there follow the rules, where names that only modifiers use have theirs if the output's
/// world has them. It does nothing.
pub fn flags_follow()
    ensures { FlagsFollow }
{}
