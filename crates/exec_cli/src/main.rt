//! The program with `exec` alone: reads its words, calls `run` over the disk and the standard streams, and ends with the answer's
//! code.
#![tactic(auto)]

mod run;

use il_base::NoMemory;
use il_outside::{DiskFolder, StdSink, StdSource, write_all};
pub use run::run;
use status_lines::Status;
use std::env;
use std::process::ExitCode;

/// The words after the program's name; none where one of them isn't text.
fn words_of(rt: &HostRuntime) -> Result<Vec<String>, NoMemory> {
    let mut words = Vec::new(rt.alloc());
    let Ok(args) = env::args(rt) else {
        return Ok(words);
    };
    for word in args.skip(1) {
        words.push(word)?;
    }
    Ok(words)
}

fn main(rt: HostRuntime) -> ExitCode {
    let mut err = StdSink::new(rt.stderr());
    let words = match words_of(&rt) {
        Ok(words) => words,
        Err(_) => {
            let _ = write_all(&mut err, b"no memory\n");
            return ExitCode::from(Status::NoMemory.code());
        }
    };
    let mut folder = DiskFolder::new(rt.alloc(), &rt);
    let mut input = StdSource::new(rt.stdin());
    let mut out = StdSink::new(rt.stdout());
    let status = run(
        rt.alloc(),
        &words,
        &mut folder,
        &mut input,
        &mut out,
        &mut err,
    );
    ExitCode::from(status.code())
}
