//! The status line of a run.

ghost use Rattle.std.specs.Prelude.{◌≡◌, [], IfOk, map, unwrap_or};
ghost use Rattle.std.specs.String.{string_bytes};
ghost use Rattle.run_rules.specs.Answers.{name_at};
ghost use Rattle.exec_command.specs.Answer.{status_of, refused, assembly_in, file_in};
ghost use Rattle.exec_command.specs.Reporting.{StatusReported, RunReported};

use file_runs::assembly_name;
use il_base::{NoMemory, Seq, Text};
use il_outside::Sink;
use inputs::InputError;
use run_rules::{EndKind, ExecFault};
use status_lines::{Status, report};
use std::alloc::Global;

/// How a run stands, as a status.
fn status_of(steps: u64, end: EndKind) -> Status
    ensures { result ≡ status_of steps end }
{
    match end {
        EndKind::Ended { code } => Status::Ended { code },
        EndKind::Threw { kind, message } => Status::Threw { kind, message },
        EndKind::Spent => Status::Spent { steps },
        EndKind::Stopped { place } => Status::Stopped { place },
        EndKind::Stuck { place } => Status::Stuck { place },
    }
}

/// A refusal as a status.
fn refused(why: InputError) -> Status
    ensures { result ≡ refused why }
{
    match why {
        InputError::BadFile { file, at } => Status::BadFile { file, at },
        InputError::Limit { which, found } => Status::Limit { which, found },
        InputError::NoEntry { token } => Status::NoEntry { token },
        InputError::NoMemory => Status::NoMemory,
    }
}

/// The name of the assembly that one of the files is, by its number; empty where it has none.
fn name_or_empty(alloc: Global, files: &Seq<Text>, file: u32) -> Result<Text, NoMemory>
    ensures { IfOk result (λ name. name ≡ unwrap_or (name_at files.now file) []) }
{
    match assembly_name(alloc, files, file)? {
        None => Ok(Seq::new(alloc)),
        Some(name) => Ok(name),
    }
}

/// The name of the assembly that a status has a place in.
fn assembly_in(alloc: Global, files: &Seq<Text>, status: &Status) -> Result<Text, NoMemory>
    ensures { IfOk result (λ name. name ≡ assembly_in files.now status.now) }
{
    match status {
        Status::Stopped { place } => name_or_empty(alloc, files, place.asm),
        Status::Stuck { place } => name_or_empty(alloc, files, place.asm),
        Status::Done
        | Status::Ended { .. }
        | Status::BadWords { .. }
        | Status::BadFile { .. }
        | Status::Outside { .. }
        | Status::Unresolved { .. }
        | Status::NotYet { .. }
        | Status::Collision { .. }
        | Status::BadDescriptor { .. }
        | Status::Limit { .. }
        | Status::NoEntry { .. }
        | Status::ReadFault
        | Status::WriteFault
        | Status::NoMemory
        | Status::Threw { .. }
        | Status::Spent { .. } => Ok(Seq::new(alloc)),
    }
}

/// The name of the file that a status speaks of.
fn file_in<'a>(names: &'a [String], status: &Status) -> &'a [u8]
    ensures { result.now ≡ file_in (map string_bytes names.now) status.now }
{
    match status {
        Status::BadFile { file, .. } => match names.get(*file as usize) {
            None => b"",
            Some(name) => name.as_bytes(),
        },
        Status::Done
        | Status::Ended { .. }
        | Status::BadWords { .. }
        | Status::Outside { .. }
        | Status::Unresolved { .. }
        | Status::NotYet { .. }
        | Status::Collision { .. }
        | Status::BadDescriptor { .. }
        | Status::Limit { .. }
        | Status::NoEntry { .. }
        | Status::ReadFault
        | Status::WriteFault
        | Status::NoMemory
        | Status::Threw { .. }
        | Status::Spent { .. }
        | Status::Stopped { .. }
        | Status::Stuck { .. } => b"",
    }
}

/// Writes the line of a status of files that were read under these names.
fn report_status<E: Sink>(
    alloc: Global,
    err: &mut E,
    names: &[String],
    files: &Seq<Text>,
    status: Status,
) -> Status
    ensures { StatusReported (map string_bytes names.now) files.now status (E.state err.old) (E.state err.new) result }
{
    let word = file_in(names, &status);
    match assembly_in(alloc, files, &status) {
        Err(_) => {
            drop(status);
            report(alloc, err, &[], &[], Status::NoMemory)
        }
        Ok(asm) => report(alloc, err, asm.as_slice(), word, status),
    }
}

/// Writes the line of what a run over a sink answered.
pub(crate) fn report_run<E: Sink>(
    alloc: Global,
    err: &mut E,
    names: &[String],
    files: &Seq<Text>,
    steps: u64,
    answer: Result<EndKind, ExecFault>,
) -> Status
    ensures { RunReported (map string_bytes names.now) files.now steps answer (E.state err.old) (E.state err.new) result }
{
    match answer {
        Ok(end) => report_status(alloc, err, names, files, status_of(steps, end)),
        Err(ExecFault::Write) => report(alloc, err, &[], &[], Status::WriteFault),
        Err(ExecFault::Refused(why)) => report_status(alloc, err, names, files, refused(why)),
    }
}
