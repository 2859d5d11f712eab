//! The laws.

ghost use Rattle.flow_laws.specs.Laws.{DepthsFound, NoDepthsFound, SourcesFound};

/// A body whose walks find depths has these by rounds too, and one whose walks go wrong or disagree has none by rounds.
pub fn rounds_find_depths()
    ensures found { DepthsFound }
    ensures none { NoDepthsFound }
{}

/// In a body within the limit that has depths, a source is carried to a slot by rounds exactly where a walk carries it there.
pub fn rounds_find_sources()
    ensures { SourcesFound }
{}
