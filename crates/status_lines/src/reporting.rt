//! A status and its line.

ghost use Rattle.std.specs.Prelude.{◌≡◌};
ghost use Rattle.il_outside.specs.Streams.{AppendsPrefix};
ghost use Rattle.status_lines.specs.Lines.{line_of};
ghost use Rattle.status_lines.specs.Reports.{starved_status, Reports};

use crate::lines::line_of;
use crate::status::Status;
use il_outside::{Sink, SinkError, write_all};
use std::alloc::Global;

/// The answer where memory ran out before the line of a status was written: a write that failed stays one.
fn starved_status(status: Status) -> Status
    ensures { result ≡ starved_status status }
{
    match status {
        Status::WriteFault => Status::WriteFault,
        Status::Done
        | Status::Ended { .. }
        | Status::BadWords { .. }
        | Status::BadFile { .. }
        | Status::Outside { .. }
        | Status::Unresolved { .. }
        | Status::NotYet { .. }
        | Status::Collision { .. }
        | Status::BadDescriptor { .. }
        | Status::Limit { .. }
        | Status::NoEntry { .. }
        | Status::ReadFault
        | Status::NoMemory
        | Status::Threw { .. }
        | Status::Spent { .. }
        | Status::Stopped { .. }
        | Status::Stuck { .. } => Status::NoMemory,
    }
}

/// Writes the line of a status to `err`, once, and gives the status back: `asm` is the name of the assembly that its place is in,
/// `word` the name of its file, or for a collision the text of its two types. Where a write failed or memory ran out, the answer
/// is WriteFault, or NoMemory for a status other than WriteFault, and a prefix of the line was written.
pub fn report<E: Sink>(
    alloc: Global,
    err: &mut E,
    asm: &[u8],
    word: &[u8],
    status: Status,
) -> Status
    ensures { Reports (line_of asm.now word.now status) status (E.state err.old) (E.state err.new) result }
{
    let line = match line_of(alloc, asm, word, &status) {
        Err(_) => return starved_status(status),
        Ok(line) => line,
    };
    match write_all(err, line.as_slice()) {
        Ok(()) => status,
        Err(SinkError::Failed) => Status::WriteFault,
        Err(SinkError::NoMemory) => starved_status(status),
    }
}
