//! The example with a few bytes changed: what each command answers, and what is left of it.

use super::example::{cut, edited, endless, hello, uncalled};
use super::{named, words_of};
use crate::run;
use il_base::{NoMemory, Seq, Text};
use il_outside::{FailAt, Folder, MemFolder, MemSink, MemSource};
use std::alloc::Global;
use std::test::*;

/// What a run over a folder with one file, `a.exe`, leaves.
#[derive(Drop)]
struct Left {
    /// The code that the program ends with.
    code: u8,
    printed: Text,
    line: Text,
    /// What is under the name that was asked for, none where that isn't there.
    file: Option<Text>,
}

/// Runs the words over a folder with the bytes as `a.exe`, of whose calls some fail, and reads what is then under a name.
fn run_on(
    alloc: Global,
    bytes: &[u8],
    words: &[&str],
    fails: &[FailAt],
    name: &str,
) -> Result<Left, NoMemory> {
    let words = words_of(alloc, words)?;
    let mut copy = Vec::new(alloc);
    copy.extend_from_slice(bytes)?;
    let mut files = Seq::new(alloc);
    files.push(named(alloc, b"a.exe", copy)?)?;
    let mut folder = MemFolder::new(files, Seq::from_slice(alloc, fails)?);
    let mut input = MemSource::new(Seq::new(alloc), Seq::new(alloc));
    let mut out = MemSink::new(Seq::new(alloc));
    let mut err = MemSink::new(Seq::new(alloc));
    let status = run(alloc, &words, &mut folder, &mut input, &mut out, &mut err);
    Ok(Left {
        code: status.code(),
        printed: Seq::from_slice(alloc, out.held())?,
        line: Seq::from_slice(alloc, err.held())?,
        file: folder.read(alloc, name).ok(),
    })
}

/// Whether a run answered so, and printed this.
fn said(left: &Left, code: u8, printed: &[u8], line: &[u8]) -> bool {
    left.code == code && left.printed.as_slice() == printed && left.line.as_slice() == line
}

/// Whether `exec` answers the bytes so, and prints this.
fn executes(
    alloc: Global,
    bytes: &[u8],
    code: u8,
    printed: &[u8],
    line: &[u8],
) -> Result<bool, NoMemory> {
    let words = ["exec", "a.exe", "--steps", "1000"];
    let left = run_on(alloc, bytes, &words, &[], "a.exe")?;
    Ok(said(&left, code, printed, line))
}

/// Whether `trim` answers the bytes so, and writes nothing.
fn trim_refuses(alloc: Global, bytes: &[u8], code: u8, line: &[u8]) -> Result<bool, NoMemory> {
    let left = run_on(alloc, bytes, &["trim", "o.exe", "a.exe"], &[], "o.exe")?;
    Ok(said(&left, code, b"", line) && left.file.is_none())
}

/// Whether both commands refuse the bytes so.
fn refused(alloc: Global, bytes: &[u8], code: u8, line: &[u8]) -> Result<bool, NoMemory> {
    Ok(executes(alloc, bytes, code, b"", line)? && trim_refuses(alloc, bytes, code, line)?)
}

/// The file that `trim` makes of the bytes; none where it doesn't say `done`.
fn trimmed(alloc: Global, bytes: &[u8], output: &str) -> Result<Text, NoMemory> {
    let left = run_on(alloc, bytes, &["trim", output, "a.exe"], &[], output)?;
    if said(&left, 0, b"", b"done\n") {
        Ok(left.file.unwrap_or(Seq::new(alloc)))
    } else {
        Ok(Seq::new(alloc))
    }
}

fn bad(alloc: Global, bytes: Vec<u8>, line: &[u8]) -> Result<bool, NoMemory> {
    refused(alloc, &bytes, 3, line)
}

/// Copies that are cut or have one byte changed: CLI flags, the first stream's name, a class that is its own base.
fn damages(alloc: Global) -> Result<bool, NoMemory> {
    let native = edited(alloc, 536, b"\0")?;
    let stream = edited(alloc, 645, b"\x2d")?;
    let cyclic = edited(alloc, 808, b"\x08")?;
    Ok(
        bad(alloc, cut(alloc, 0)?, b"bad file a.exe 0 NotPe\n")?
            && bad(alloc, cut(alloc, 1000)?, b"bad file a.exe 1000 Truncated\n")?
            && bad(alloc, native, b"bad file a.exe 536 NotIlOnly\n")?
            && bad(alloc, stream, b"bad file a.exe 636 BadStream\n")?
            && bad(alloc, cyclic, b"bad file a.exe 800 CyclicTypes\n")?,
    )
}

#[test]
fn damage_is_named(rt: HostRuntime) -> Result<(), Fail> {
    let all = damages(rt.alloc());
    assert!(rt; all.ok().ok_or("memory")?);
    Ok(())
}

/// A call of a MemberRef row that isn't there.
fn bad_operand(alloc: Global) -> Result<bool, NoMemory> {
    let call = edited(alloc, 599, b"\x02")?;
    Ok(
        executes(alloc, &call, 22, b"", b"stopped App:06000001:00000005\n")?
            && trim_refuses(alloc, &call, 5, b"unresolved App:06000001:00000005\n")?,
    )
}

#[test]
fn what_names_nothing_is_told(rt: HostRuntime) -> Result<(), Fail> {
    let all = bad_operand(rt.alloc());
    assert!(rt; all.ok().ok_or("memory")?);
    Ok(())
}

/// Whether the part is at a place of the bytes.
fn holds(bytes: &[u8], at: usize, part: &[u8]) -> bool {
    part.iter().enumerate().all(|(index, value)| bytes.get(at.saturating_add(index)) == Some(value))
}

/// An empty `Main` leaves one TypeRef, no MemberRef and no text; an endless one stays endless.
fn trims_and_runs(alloc: Global) -> Result<bool, NoMemory> {
    let empty = edited(alloc, 592, b"\x06\x2a")?;
    let empty_left = trimmed(alloc, &empty, "o.exe")?;
    let endless_left = trimmed(alloc, &endless(alloc)?, "o.exe")?;
    Ok(
        executes(alloc, &empty, 0, b"", b"ended 0\n")?
            && executes(alloc, empty_left.as_slice(), 0, b"", b"ended 0\n")?
            && holds(empty_left.as_slice(), 0x2c6, b"G\0\0\0\x09\0\0\0")
            && holds(
                empty_left.as_slice(),
                0x2d6,
                b"\x01\0\0\0\x01\0\0\0\x02\0\0\0\x01\0\0\0",
            )
            && executes(alloc, endless_left.as_slice(), 21, b"", b"spent 1000\n")?,
    )
}

#[test]
fn what_is_left_runs_alike(rt: HostRuntime) -> Result<(), Fail> {
    let all = trims_and_runs(rt.alloc());
    assert!(rt; all.ok().ok_or("memory")?);
    Ok(())
}

/// A method that nothing calls is left out, also where OUT is IN.
fn leaves_out(alloc: Global) -> Result<bool, NoMemory> {
    let whole = uncalled(alloc)?;
    let hello = hello(alloc)?;
    let left = trimmed(alloc, &whole, "o.exe")?;
    let itself = trimmed(alloc, &whole, "a.exe")?;
    Ok(
        executes(alloc, &whole, 0, b"Hi\n", b"ended 0\n")?
            && left.as_slice() == hello.as_slice()
            && itself.as_slice() == hello.as_slice(),
    )
}

#[test]
fn a_method_that_nothing_calls_goes(rt: HostRuntime) -> Result<(), Fail> {
    let all = leaves_out(rt.alloc());
    assert!(rt; all.ok().ok_or("memory")?);
    Ok(())
}

/// The read of IN fails, the write of OUT after 3 bytes, or that of the keep list after 4.
fn calls_that_fail(alloc: Global) -> Result<bool, NoMemory> {
    let hello = hello(alloc)?;
    let words = ["trim", "o.exe", "a.exe", "--keep-list", "kept.txt"];
    let unread = [FailAt { call: 0, kept: 0 }];
    let unread = run_on(alloc, &hello, &words, &unread, "o.exe")?;
    let unwritten = [FailAt { call: 1, kept: 3 }];
    let unwritten = run_on(alloc, &hello, &words, &unwritten, "o.exe")?;
    let unlisted = [FailAt { call: 2, kept: 4 }];
    let unlisted = run_on(alloc, &hello, &words, &unlisted, "kept.txt")?;
    Ok(
        said(&unread, 9, b"", b"read fault\n")
            && unread.file.is_none()
            && said(&unwritten, 10, b"", b"write fault\n")
            && unwritten.file.unwrap_or(Seq::new(alloc)).as_slice() == b"MZ\x90".as_slice()
            && said(&unlisted, 10, b"", b"write fault\n")
            && unlisted.file.unwrap_or(Seq::new(alloc)).as_slice() == b"App:".as_slice(),
    )
}

#[test]
fn a_call_that_fails_is_told(rt: HostRuntime) -> Result<(), Fail> {
    let all = calls_that_fail(rt.alloc());
    assert!(rt; all.ok().ok_or("memory")?);
    Ok(())
}
