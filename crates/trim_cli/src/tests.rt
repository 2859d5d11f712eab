//! Runs of the program over objects in memory.

mod edits;
mod example;

use super::*;
use example::{endless, hello, library};
use file_runs::exec;
use il_base::{NoMemory, Seq};
use il_outside::{Folder, MemFolder, MemSink, MemSource, NamedFile};
use run_rules::EndKind;
use std::alloc::{AllocError, Global};
use std::test::*;
use trim_core::{Opts, trim};

fn words_of(alloc: Global, words: &[&str]) -> Result<Vec<String>, AllocError> {
    let mut all = Vec::new(alloc);
    for word in words {
        all.push(String::from_str(alloc, word)?)?;
    }
    Ok(all)
}

fn named(alloc: Global, name: &[u8], bytes: Vec<u8>) -> Result<NamedFile, NoMemory> {
    Ok(NamedFile {
        name: Seq::from_slice(alloc, name)?,
        bytes: Seq::from_vec(bytes),
    })
}

/// A folder with the files `hello.exe` and `loop.exe`.
fn folder_of(alloc: Global) -> Result<MemFolder, NoMemory> {
    let mut files = Seq::new(alloc);
    files.push(named(alloc, b"hello.exe", hello(alloc)?)?)?;
    files.push(named(alloc, b"loop.exe", endless(alloc)?)?)?;
    Ok(MemFolder::honest(files))
}

/// Runs the words over a folder with `hello.exe`, and says whether the answer's code, the output and the status line are these.
fn answers(
    alloc: Global,
    words: &[&str],
    code: u8,
    printed: &[u8],
    line: &[u8],
) -> Result<bool, NoMemory> {
    let words = words_of(alloc, words)?;
    let mut folder = folder_of(alloc)?;
    let mut input = MemSource::new(Seq::new(alloc), Seq::new(alloc));
    let mut out = MemSink::new(Seq::new(alloc));
    let mut err = MemSink::new(Seq::new(alloc));
    let answer = run(alloc, &words, &mut folder, &mut input, &mut out, &mut err);
    Ok(answer.code() == code && out.held() == printed && err.held() == line)
}

#[test]
fn a_program_prints_and_ends(rt: HostRuntime) -> Result<(), Fail> {
    let ended = answers(rt.alloc(), &["exec", "hello.exe"], 0, b"Hi\n", b"ended 0\n");
    assert!(rt; ended.ok().ok_or("memory")?);
    let spent = answers(
        rt.alloc(),
        &["exec", "hello.exe", "--steps", "2"],
        21,
        b"Hi\n",
        b"spent 2\n",
    );
    assert!(rt; spent.ok().ok_or("memory")?);
    Ok(())
}

#[test]
fn one_assembly_given_twice_is_refused(rt: HostRuntime) -> Result<(), Fail> {
    let twice = answers(
        rt.alloc(),
        &["exec", "hello.exe", "hello.exe"],
        3,
        b"",
        b"bad file hello.exe 0 DuplicateAssembly\n",
    );
    assert!(rt; twice.ok().ok_or("memory")?);
    Ok(())
}

#[test]
fn steps_are_used_up(rt: HostRuntime) -> Result<(), Fail> {
    let none = answers(
        rt.alloc(),
        &["exec", "hello.exe", "--steps", "0"],
        21,
        b"",
        b"spent 0\n",
    );
    assert!(rt; none.ok().ok_or("memory")?);
    let endless = answers(
        rt.alloc(),
        &["exec", "loop.exe", "--steps", "1000"],
        21,
        b"",
        b"spent 1000\n",
    );
    assert!(rt; endless.ok().ok_or("memory")?);
    Ok(())
}

#[test]
fn bad_words_are_named_by_their_place(rt: HostRuntime) -> Result<(), Fail> {
    let number = answers(
        rt.alloc(),
        &["exec", "a.exe", "--steps", "x"],
        2,
        b"",
        b"bad words 3\n",
    );
    assert!(rt; number.ok().ok_or("memory")?);
    let missing = answers(rt.alloc(), &["exec", "none.exe"], 9, b"", b"read fault\n");
    assert!(rt; missing.ok().ok_or("memory")?);
    Ok(())
}

/// Trims `hello.exe` into `out.exe`, and says whether the two are the same bytes.
fn trims_to_itself(alloc: Global) -> Result<bool, NoMemory> {
    let words = words_of(alloc, &["trim", "out.exe", "hello.exe"])?;
    let mut folder = folder_of(alloc)?;
    let mut input = MemSource::new(Seq::new(alloc), Seq::new(alloc));
    let mut out = MemSink::new(Seq::new(alloc));
    let mut err = MemSink::new(Seq::new(alloc));
    let answer = run(alloc, &words, &mut folder, &mut input, &mut out, &mut err);
    let whole = hello(alloc)?;
    match folder.read(alloc, "out.exe") {
        Err(_) => Ok(false),
        Ok(left) => Ok(
            answer.code() == 0
                && err.held() == b"done\n".as_slice()
                && left.as_slice() == whole.as_slice(),
        ),
    }
}

#[test]
fn a_file_without_leftovers_trims_to_itself(rt: HostRuntime) -> Result<(), Fail> {
    let same = trims_to_itself(rt.alloc());
    assert!(rt; same.ok().ok_or("memory")?);
    Ok(())
}

/// Words of `trim` that don't read: OUT alone, a keep list that is OUT, an option that comes again, one without its value.
fn are_bad(alloc: Global) -> Result<bool, NoMemory> {
    let alone = ["trim", "out.exe"];
    let same = ["trim", "o", "a", "--keep-list", "o"];
    let again = ["trim", "o", "a", "--internalize", "--internalize"];
    let short = ["trim", "o", "a", "--keep-list", "k", "--descriptor"];
    Ok(
        answers(alloc, &alone, 2, b"", b"bad words 2\n")?
            && answers(alloc, &same, 2, b"", b"bad words 4\n")?
            && answers(alloc, &again, 2, b"", b"bad words 4\n")?
            && answers(alloc, &short, 2, b"", b"bad words 6\n")?,
    )
}

#[test]
fn bad_words_of_a_trim_are_named(rt: HostRuntime) -> Result<(), Fail> {
    let all = are_bad(rt.alloc());
    assert!(rt; all.ok().ok_or("memory")?);
    Ok(())
}

/// What a descriptor names of `lib.dll`.
const KEEPS: &[u8] =
    b"<linker><assembly fullname=\"Lib\"><type fullname=\"Program\"/></assembly></linker>";

/// Runs `exec` of `out.exe`, and says whether it prints `Hi`.
fn prints_hi(alloc: Global, folder: &mut MemFolder) -> Result<bool, NoMemory> {
    let words = words_of(alloc, &["exec", "out.exe"])?;
    let mut input = MemSource::new(Seq::new(alloc), Seq::new(alloc));
    let mut out = MemSink::new(Seq::new(alloc));
    let mut err = MemSink::new(Seq::new(alloc));
    let answer = run(alloc, &words, folder, &mut input, &mut out, &mut err);
    Ok(
        answer.code() == 0
            && out.held() == b"Hi\n".as_slice()
            && err.held() == b"ended 0\n".as_slice(),
    )
}

/// Trims `hello.exe` and `lib.dll`, of which a descriptor names the class, into `out.exe`, which then runs; the last line of the keep
/// list is the library's method.
fn merges(alloc: Global) -> Result<bool, NoMemory> {
    let mut files = Seq::new(alloc);
    files.push(named(alloc, b"hello.exe", hello(alloc)?)?)?;
    files.push(named(alloc, b"lib.dll", library(alloc)?)?)?;
    files.push(named(alloc, b"keep.xml", Vec::from_slice(alloc, KEEPS)?)?)?;
    let mut folder = MemFolder::honest(files);
    let words = words_of(
        alloc,
        &[
            "trim",
            "out.exe",
            "hello.exe",
            "--descriptor",
            "keep.xml",
            "lib.dll",
            "--keep-list",
            "kept.txt",
            "--internalize",
        ],
    )?;
    let mut input = MemSource::new(Seq::new(alloc), Seq::new(alloc));
    let mut out = MemSink::new(Seq::new(alloc));
    let mut err = MemSink::new(Seq::new(alloc));
    let answer = run(alloc, &words, &mut folder, &mut input, &mut out, &mut err);
    if answer.code() != 0 || err.held() != b"done\n".as_slice() || !out.held().is_empty() {
        return Ok(false);
    }
    match folder.read(alloc, "kept.txt") {
        Err(_) => Ok(false),
        Ok(list) => Ok(
            list.as_slice()
                .ends_with(b"Lib:06000001 method Program.Main\n")
                && prints_hi(alloc, &mut folder)?,
        ),
    }
}

#[test]
fn two_assemblies_become_one(rt: HostRuntime) -> Result<(), Fail> {
    let merged = merges(rt.alloc());
    assert!(rt; merged.ok().ok_or("memory")?);
    Ok(())
}

/// Whether `trim` of the bytes of `hello.exe` alone gives itself.
fn call_answers(alloc: Global) -> Result<bool, NoMemory> {
    let mut files = Seq::new(alloc);
    files.push(Seq::from_vec(hello(alloc)?))?;
    let whole = hello(alloc)?;
    let opts = Opts {
        internalize: false,
        keep_list: false,
    };
    match trim(alloc, &files, &Seq::new(alloc), opts) {
        Err(_) => Ok(false),
        Ok(trimmed) => Ok(trimmed.bytes.as_slice() == whole.as_slice()),
    }
}

/// Whether `exec` of the bytes of `hello.exe` alone gives what it prints, and how it ends.
fn exec_answers(alloc: Global) -> Result<bool, NoMemory> {
    let mut files = Seq::new(alloc);
    files.push(Seq::from_vec(hello(alloc)?))?;
    match exec(alloc, &files, b"typed", 3) {
        Err(_) => Ok(false),
        Ok(ran) => Ok(ran.output.as_slice() == b"Hi\n".as_slice() && has_ended(&ran.end)),
    }
}

/// Whether a run has ended with the code 0.
fn has_ended(end: &EndKind) -> bool {
    match end {
        EndKind::Ended { code } => *code == 0,
        _ => false,
    }
}

#[test]
fn the_calls_on_bytes_answer(rt: HostRuntime) -> Result<(), Fail> {
    let trimmed = call_answers(rt.alloc());
    assert!(rt; trimmed.ok().ok_or("memory")?);
    let ran = exec_answers(rt.alloc());
    assert!(rt; ran.ok().ok_or("memory")?);
    Ok(())
}

/// Runs `exec` of `hello.exe` with an input of which the first read fails, and says whether the answer is `read fault`.
fn fails_to_read(alloc: Global) -> Result<bool, NoMemory> {
    let words = words_of(alloc, &["exec", "hello.exe"])?;
    let mut folder = folder_of(alloc)?;
    let mut input = MemSource::new(
        Seq::from_slice(alloc, b"typed")?,
        Seq::from_slice(alloc, &[0])?,
    );
    let mut out = MemSink::new(Seq::new(alloc));
    let mut err = MemSink::new(Seq::new(alloc));
    let answer = run(alloc, &words, &mut folder, &mut input, &mut out, &mut err);
    Ok(answer.code() == 9 && out.held().is_empty() && err.held() == b"read fault\n".as_slice())
}

#[test]
fn an_input_that_fails_is_told(rt: HostRuntime) -> Result<(), Fail> {
    let told = fails_to_read(rt.alloc());
    assert!(rt; told.ok().ok_or("memory")?);
    Ok(())
}

/// Runs `exec` of `hello.exe` over sinks of which these calls fail, from 0, and says whether the code is that of a write fault,
/// nothing was printed, and the status line is this.
fn fails_to_write(
    alloc: Global,
    of_out: &[u32],
    of_err: &[u32],
    printed: &[u8],
    line: &[u8],
) -> Result<bool, NoMemory> {
    let words = words_of(alloc, &["exec", "hello.exe"])?;
    let mut folder = folder_of(alloc)?;
    let mut input = MemSource::new(Seq::new(alloc), Seq::new(alloc));
    let mut out = MemSink::new(Seq::from_slice(alloc, of_out)?);
    let mut err = MemSink::new(Seq::from_slice(alloc, of_err)?);
    let answer = run(alloc, &words, &mut folder, &mut input, &mut out, &mut err);
    Ok(answer.code() == 10 && out.held() == printed && err.held() == line)
}

#[test]
fn writes_that_fail_are_told(rt: HostRuntime) -> Result<(), Fail> {
    let unprinted = fails_to_write(rt.alloc(), &[0], &[], b"", b"write fault\n");
    assert!(rt; unprinted.ok().ok_or("memory")?);
    let untold = fails_to_write(rt.alloc(), &[], &[0], b"Hi\n", b"");
    assert!(rt; untold.ok().ok_or("memory")?);
    Ok(())
}
