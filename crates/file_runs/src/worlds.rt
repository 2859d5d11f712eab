//! A run of a world over a sink.

ghost use Rattle.std.specs.Prelude.{◌≡◌, IfOk};
ghost use Rattle.rules.specs.link_rules.Linked.{IsWorld};
ghost use Rattle.rules.specs.step_rules.Run.{run_from};
ghost use Rattle.rules.specs.view_rules.Answers.{queries_of};
ghost use Rattle.run_rules.specs.Answers.{RunsTo};
ghost use Rattle.run_rules.specs.Runs.{world_run, end_of, entry_of, place_at};
ghost use Rattle.file_runs.specs.Steps.{RunsTo as EndsTo};

use crate::fault::RunFault;
use crate::running::run_to;
use cil_world::View;
use il_base::cil_values::End;
use il_base::world_model::{AsmRec, World, index_in, token_of};
use il_base::{MethodId, NoMemory, Place, table};
use il_outside::Sink;
use inputs::InputError;
use run_rules::{EndKind, ExecFault};
use std::alloc::Global;
use type_tables::methods::method_home;

/// A place in a method of a world.
fn place_at(recs: &[AsmRec], method: MethodId, offset: u32) -> Result<Place, NoMemory>
    ensures { IfOk result (λ place. place ≡ place_at recs.now method.0 offset) }
{
    let Some(home) = method_home(recs, method)? else {
        return Ok(Place {
            asm: 0,
            token: 0,
            offset,
        });
    };
    let token = token_of(table::METHOD_DEF, home.row as usize)?;
    Ok(Place {
        asm: home.asm,
        token,
        offset,
    })
}

fn end_of(recs: &[AsmRec], end: Option<End>) -> Result<EndKind, NoMemory>
    ensures { IfOk result (λ kind. kind ≡ end_of recs.now end) }
{
    match end {
        None => Ok(EndKind::Spent),
        Some(End::Ended { code }) => Ok(EndKind::Ended { code }),
        Some(End::Threw { kind, message }) => Ok(EndKind::Threw {
            kind: kind.into_inner(),
            message: message.into_inner(),
        }),
        Some(End::Stopped { method, offset }) => {
            let place = place_at(recs, method, offset)?;
            Ok(EndKind::Stopped { place })
        }
        Some(End::Stuck { method, offset }) => {
            let place = place_at(recs, method, offset)?;
            Ok(EndKind::Stuck { place })
        }
    }
}

/// The place in the world of the entry method of the first assembly.
fn entry_of(recs: &[AsmRec]) -> u32
    ensures { result ≡ entry_of recs.now }
{
    match recs {
        [] => 0,
        [rec, ..] => match index_in(table::METHOD_DEF, rec.entry) {
            None => 0,
            Some(row) => row,
        },
    }
}

/// `n` steps of a world's program from this entry.
fn run_entry<O: Sink>(
    alloc: Global,
    world: &World,
    entry: u32,
    input: &[u8],
    n: u64,
    out: &mut O,
) -> Result<Option<End>, RunFault>
    requires { IsWorld world.now }
    ensures { EndsTo (run_from (queries_of world.now.recs) entry input.now n) (O.state out.old) (O.state out.new) result }
{
    match View::of(alloc, world) {
        Err(_) => Err(RunFault::NoMemory),
        Ok(view) => run_to(alloc, &view, entry, input, n, out),
    }
}

/// `n` steps of a world's program from its entry. Printed bytes go to `out` after the step that printed them.
pub(crate) fn run_world<O: Sink>(
    alloc: Global,
    world: &World,
    input: &[u8],
    n: u64,
    out: &mut O,
) -> Result<EndKind, ExecFault>
    requires { IsWorld world.now }
    ensures { RunsTo (world_run world.now.recs input.now n) (O.state out.old) (O.state out.new) result }
{
    let recs = world.recs.as_slice();
    match run_entry(alloc, world, entry_of(recs), input, n, out) {
        Err(RunFault::Write) => Err(ExecFault::Write),
        Err(RunFault::NoMemory) => Err(ExecFault::Refused(InputError::NoMemory)),
        Ok(end) => match end_of(recs, end) {
            Err(_) => Err(ExecFault::Refused(InputError::NoMemory)),
            Ok(kind) => Ok(kind),
        },
    }
}
