//! Follows the values through each body of the assemblies that its words name, so that `bench/run` can time it. Prints how many
//! methods the first of them has, of how many there is a flow, and how many sources these have together.
#![tactic(auto)]

ghost use Rattle.rules.specs.link_rules.Linked.{IsWorld};

use il_base::{MethodId, NoMemory, Seq, Text};
use il_outside::{DiskFolder, Folder};
use inputs::take_files;
use std::alloc::Global;
use std::env;
use std::process::ExitCode;
use type_system::Types;
use value_flow::Flow;
use value_flow::body_graph::Graph;

/// The exit code where a file isn't read, or the files make no world.
const NO_WORLD: u8 = 1;

/// The exit code where memory ran out.
const NO_MEMORY: u8 = 2;

/// What was followed.
#[derive(Clone, Copy)]
struct Counts {
    methods: usize,
    flows: u64,
    sources: u64,
}

/// How many sources the body of a method has, by the method's number from 0; none where it has no flow.
fn sources_of(alloc: Global, types: &Types<'_>, m: u32) -> Option<u64>
    requires { IsWorld types.now }
{
    let Ok(graph) = Graph::of(alloc, types.world(), MethodId(m)) else {
        return None;
    };
    let Ok(flow) = Flow::of(alloc, types, &graph, MethodId(m)) else {
        return None;
    };
    Some(flow.sources().len() as u64)
}

/// Follows the values through the first so many methods.
fn follow(alloc: Global, types: &Types<'_>, methods: usize) -> Counts
    requires { IsWorld types.now }
{
    let mut counts = Counts {
        methods,
        flows: 0,
        sources: 0,
    };
    for m in 0..methods {
        if let Ok(m) = u32::try_from(m) {
            if let Some(sources) = sources_of(alloc, types, m) {
                counts.flows = counts.flows.saturating_add(1);
                counts.sources = counts.sources.saturating_add(sources);
            }
        }
    }
    counts
}

/// The files under the words after the program's name; none where one of them isn't read.
fn files_of(rt: &HostRuntime) -> Result<Option<Seq<Text>>, NoMemory> {
    let mut files = Seq::new(rt.alloc());
    let mut folder = DiskFolder::new(rt.alloc(), rt);
    let Ok(args) = env::args(rt) else {
        return Ok(None);
    };
    for name in args.skip(1) {
        let Ok(bytes) = folder.read(rt.alloc(), name.as_str()) else {
            return Ok(None);
        };
        files.push(bytes)?;
    }
    Ok(Some(files))
}

fn main(rt: HostRuntime) -> ExitCode {
    let files = match files_of(&rt) {
        Err(_) => return ExitCode::from(NO_MEMORY),
        Ok(None) => return ExitCode::from(NO_WORLD),
        Ok(Some(files)) => files,
    };
    let Ok(world) = take_files(rt.alloc(), &files) else {
        return ExitCode::from(NO_WORLD);
    };
    let methods = match world.recs.get(0) {
        None => 0,
        Some(rec) => rec.method_def.len(),
    };
    let Ok(types) = Types::new(rt.alloc(), &world) else {
        return ExitCode::from(NO_MEMORY);
    };
    let counts = follow(rt.alloc(), &types, methods);
    let _ = println!(rt;
        "methods {} flows {} sources {}",
        counts.methods, counts.flows, counts.sources
    );
    ExitCode::from(0)
}
