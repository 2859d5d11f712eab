//! The law of moving.

ghost use Rattle.merge_plan.specs.moved_parts.Laws.{MovesTell};

/// A law: signatures, bodies and rows that are moved by the tokens of the output are those of the record that a merge leaves. It
/// does nothing.
pub fn moves_tell()
    ensures { MovesTell }
{}
