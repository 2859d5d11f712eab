//! The ways out of each instruction.

ghost use Rattle.std.specs.Prelude.{◌≡◌, ◌++◌, map, IfOk, OnOk};
ghost use Rattle.rules.specs.flow_rules.Steps.{offsets};
ghost use Rattle.rules.specs.flow_rules.Exits.{exit_of, exits_of, exit_offsets, offset_to};
ghost use Rattle.value_flow.specs.body_graph.Methods.{setting_in, IsHere};
ghost use Rattle.value_flow.specs.body_graph.Places.{ArePlaces};

use crate::body_graph::counts::counts_of;
use crate::body_graph::methods::Method;
use crate::body_graph::places::Places;
use crate::body_graph::steps::{Code, steps_of};
use il_base::{Instr, NoMemory, Seq};
use rules::flow_rules::{Exit, Step};
use std::alloc::Global;

fn exit_of(
    alloc: Global,
    m: &Method<'_>,
    places: &Places,
    k: u32,
    i: &Instr,
) -> Result<Exit, NoMemory>
    requires here { IsHere m.now }
    requires places { ArePlaces (offsets m.now.body.now.code) places.now }
    ensures { IfOk result (λ e. e ≡ exit_of m.now.world.now.recs (setting_in m.now) k i.now) }
{
    match counts_of(m, i) {
        Err(error) => Err(error),
        Ok(None) => Ok(Exit {
            pops: 0,
            pushes: 0,
            steps: Seq::new(alloc),
        }),
        Ok(Some(counts)) => {
            let code = Code {
                code: m.body.code.as_slice(),
                handlers: m.body.handlers.as_slice(),
                places,
            };
            let steps = steps_of(alloc, &code, k, i)?;
            Ok(Exit {
                pops: counts.0,
                pushes: counts.1,
                steps,
            })
        }
    }
}

/// The ways out of each instruction of a method.
#[tactic(auto, unfolding(rules::specs::flow_rules::Exits::exits_of))]
pub(crate) fn exits_of(
    alloc: Global,
    m: &Method<'_>,
    places: &Places,
) -> Result<Seq<Exit>, NoMemory>
    requires here { IsHere m.now }
    requires places { ArePlaces (offsets m.now.body.now.code) places.now }
    ensures { IfOk result (λ exits. exits ≡ exits_of m.now.world.now.recs (setting_in m.now)) }
{
    let mut exits = Seq::new(alloc);
    for (k, i) in m.body.code.as_slice().iter().enumerate() {
        let Ok(place) = u32::try_from(k) else {
            return Err(NoMemory);
        };
        let exit = exit_of(alloc, m, places, place, i)?;
        exits.push(exit)?;
    }
    Ok(exits)
}

/// Puts the offset of the instruction that a step leads to.
fn put_offset(code: &[Instr], step: Step, out: &mut Seq<u32>) -> Result<(), NoMemory>
    ensures { OnOk result (out.new ≡ out.old ++ offset_to (offsets code.now) step) }
{
    if let Some(i) = code.get(step.to as usize) {
        out.push(i.at)?;
    }
    Ok(())
}

fn offsets_of(alloc: Global, code: &[Instr], e: &Exit) -> Result<Seq<u32>, NoMemory>
    ensures { IfOk result (λ out. out ≡ exit_offsets (offsets code.now) e.now) }
{
    let mut out = Seq::new(alloc);
    for step in e.steps.as_slice() {
        put_offset(code, *step, &mut out)?;
    }
    Ok(out)
}

/// The offsets where control goes from each instruction.
pub(crate) fn edges_of(
    alloc: Global,
    code: &[Instr],
    exits: &[Exit],
) -> Result<Seq<Seq<u32>>, NoMemory>
    ensures { IfOk result (λ edges. edges ≡ map (exit_offsets (offsets code.now)) exits.now) }
{
    let mut edges = Seq::new(alloc);
    for e in exits {
        let one = offsets_of(alloc, code, e)?;
        edges.push(one)?;
    }
    Ok(edges)
}
