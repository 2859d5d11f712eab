//! `exec`: runs the program of files.

ghost use Rattle.run_rules.specs.Answers.{ExecsTo, Execs, RunsTo};
ghost use Rattle.run_rules.specs.Runs.{run_of_files};
ghost use Rattle.file_runs.specs.Worlds.{IsTaken};

use crate::collect::Collected;
use crate::worlds::run_world;
use il_base::world_model::World;
use il_base::{Seq, Text};
use il_outside::Sink;
use inputs::{InputError, take_files};
use run_rules::{EndKind, Ending, ExecFault};
use std::alloc::Global;

/// The run of the world that files were taken as.
#[tactic(auto, using(crate::proofs::Taken::is_world))]
fn run_taken<O: Sink>(
    alloc: Global,
    files: &Seq<Text>,
    world: &World,
    input: &[u8],
    n: u64,
    out: &mut O,
) -> Result<EndKind, ExecFault>
    requires { IsTaken files.now world.now }
    ensures { RunsTo (run_of_files files.now input.now n) (O.state out.old) (O.state out.new) result }
{
    let _ = files;
    run_world(alloc, world, input, n, out)
}

/// Runs the program of the files, of which the first has the entry point, for at most `n` steps over these bytes of input. What a
/// step prints goes to `out` after that step. Write comes only where the sink failed in this call; a sink's want of memory is
/// Refused.
pub fn exec_to<O: Sink>(
    alloc: Global,
    files: &Seq<Text>,
    input: &[u8],
    n: u64,
    out: &mut O,
) -> Result<EndKind, ExecFault>
    ensures { ExecsTo files.now input.now n (O.state out.old) (O.state out.new) result }
{
    match take_files(alloc, files) {
        Err(why) => Err(ExecFault::Refused(why)),
        Ok(world) => run_taken(alloc, files, &world, input, n, out),
    }
}

/// The same, with what was printed as an answer.
pub fn exec(alloc: Global, files: &Seq<Text>, input: &[u8], n: u64) -> Result<Ending, InputError>
    ensures { Execs files.now input.now n result }
{
    let mut out = Collected::new(alloc);
    match exec_to(alloc, files, input, n, &mut out) {
        Ok(end) => Ok(Ending {
            output: out.into_text(),
            end,
        }),
        Err(ExecFault::Refused(refusal)) => Err(refusal),
        Err(ExecFault::Write) => unreachable!(),
    }
}
