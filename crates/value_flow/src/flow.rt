//! The flow.

ghost use Rattle.std.specs.Prelude.{◌≡◌, ◌*◌, true, List, Option, ◌↔◌, IfOk, MatchResult};
ghost use Rattle.rules.specs.link_rules.Linked.{IsWorld};
ghost use Rattle.il_base.specs.declared.ids.TypeId.{TypeId};
ghost use Rattle.il_base.specs.declared.world_model.record.AsmRec.{AsmRec};
ghost use Rattle.rules.specs.flow_rules.Methods.{Setting};
ghost use Rattle.rules.specs.flow_rules.Moves.{sources_of};
ghost use Rattle.value_flow.specs.declared.body_graph.graph.Graph.{Graph};
ghost use Rattle.value_flow.specs.body_graph.Methods.{setting_in, IsHere};
ghost use Rattle.value_flow.specs.body_graph.Graphs.{IsGraph, depth_of};
ghost use Rattle.rules.specs.flow_rules.Flows.{capped, work_of, Carries};
ghost use Rattle.value_flow.specs.Flows.{is_carried, AreParts, IsNumbered, IsReachedOf, IsFlow, IsFault, IsItsGraph, IsFlowOf};

use crate::body_graph::Graph;
use crate::body_graph::methods::{Method, method_of};
use crate::members::owner_of;
use crate::numbers::number_in;
use crate::parts::{Parts, parts_of, slots_of};
use crate::slot_flow::{Flowing, Reached};
use crate::sources::sources_of;
use il_base::{MethodId, NoMemory, Seq, TypeId};
use rules::flow_rules::Source;
use std::alloc::Global;
use type_system::Types;

/// Which sources reach which slots of a method's body. Slots are the arguments, `this` among them, then the locals, then what is on
/// the evaluation stack from its bottom, counted from 0; instructions are named by their IL offsets.
#[derive(Drop)]
pub struct Flow<'g> {
    graph: &'g Graph,
    sources: Seq<Source>,
    reached: Reached,
}

/// Why there is no flow.
#[derive(Clone, Copy, Debug, PartialEq, Eq)]
pub enum FlowError {
    /// Slots times instructions times sources pass 2147483648. `found` is the product, or the greatest number of 64 bits for one
    /// that is greater.
    Limit { found: u64 },
    NoMemory,
}

/// The most that slots times instructions times sources of a body may be for its flow to be followed.
pub const MOST_WORK: u64 = 2_147_483_648;

/// Slots times instructions times sources.
fn work_of(slots: u32, code: usize, sources: usize) -> u64
    ensures { result ≡ capped (capped (slots * code) * sources) }
{
    u64::from(slots)
        .saturating_mul(code as u64)
        .saturating_mul(sources as u64)
}

/// Slots times instructions times sources of a body with its graph; the greatest number of 64 bits stands for each that is greater.
/// Memory may run out.
pub fn work_in(
    alloc: Global,
    types: &Types<'_>,
    m: &Method<'_>,
    owner: Option<TypeId>,
    graph: &Graph,
) -> Result<u64, NoMemory>
    requires here { IsHere m.now }
    requires types { types.now ≡ m.now.world.now }
    requires graph { IsGraph m.now.world.now.recs (setting_in m.now) graph.now }
    ensures { IfOk result (λ n. n ≡ work_of m.now.world.now.recs (setting_in m.now) owner graph.now.depths) }
{
    let sources = sources_of(alloc, types, m, owner)?;
    let slots = slots_of(m, graph.depths())?;
    Ok(work_of(slots, m.body.code.len(), sources.len()))
}

/// The flow with its sources as numbers.
fn numbered<'a>(
    m: &Method<'_>,
    _owner: Option<TypeId>,
    graph: &'a Graph,
    sources: &[Source],
    parts: &'a Parts,
) -> Result<Flowing<'a>, NoMemory>
    requires graph { IsGraph m.now.world.now.recs (setting_in m.now) graph.now }
    requires sources { sources.now ≡ sources_of m.now.world.now.recs (setting_in m.now) _owner }
    requires parts { AreParts m.now.world.now.recs (setting_in m.now) _owner parts.now }
    ensures { IfOk result (IsNumbered m.now.world.now.recs (setting_in m.now) _owner graph.now.depths) }
{
    let unknown = number_in(sources, &Source::Opaque)?;
    let slots = slots_of(m, graph.depths())?;
    let Ok(count) = u32::try_from(sources.len()) else {
        return Err(NoMemory);
    };
    Ok(Flowing {
        begins: parts.begins.as_slice(),
        depths: graph.depths(),
        exits: graph.exits(),
        moves: parts.moves.as_slice(),
        taken: parts.taken.as_slice(),
        from_handle: parts.from_handle.as_slice(),
        from_text: parts.from_text.as_slice(),
        unknown,
        count,
        slots,
    })
}

fn reached_of(
    alloc: Global,
    types: &Types<'_>,
    m: &Method<'_>,
    owner: Option<TypeId>,
    graph: &Graph,
    sources: &[Source],
) -> Result<Reached, NoMemory>
    requires here { IsHere m.now }
    requires types { types.now ≡ m.now.world.now }
    requires graph { IsGraph m.now.world.now.recs (setting_in m.now) graph.now }
    requires sources { sources.now ≡ sources_of m.now.world.now.recs (setting_in m.now) owner }
    ensures { IfOk result (IsReachedOf m.now.world.now.recs (setting_in m.now) owner graph.now.depths) }
{
    let parts = parts_of(alloc, types, m, owner, sources)?;
    let flow = numbered(m, owner, graph, sources, &parts)?;
    let reached = Reached::of(alloc, &flow)?;
    Ok(reached)
}

impl<'g> Flow<'g> {
    /// The flow of values in the body of a method that is here, in the type `owner`. The graph is the method's.
    pub fn of_method(
        alloc: Global,
        types: &Types<'_>,
        m: &Method<'_>,
        owner: Option<TypeId>,
        graph: &'g Graph,
    ) -> Result<Flow<'g>, FlowError>
        requires here { IsHere m.now }
        requires types { types.now ≡ m.now.world.now }
        requires graph { IsGraph m.now.world.now.recs (setting_in m.now) graph.now }
        ensures { MatchResult result (IsFlow m.now.world.now.recs (setting_in m.now) owner graph.now) (IsFault m.now.world.now.recs (setting_in m.now) owner graph.now) }
    {
        let Ok(sources) = sources_of(alloc, types, m, owner) else {
            return Err(FlowError::NoMemory);
        };
        let Ok(slots) = slots_of(m, graph.depths()) else {
            return Err(FlowError::NoMemory);
        };
        let found = work_of(slots, m.body.code.len(), sources.len());
        if found > MOST_WORK {
            return Err(FlowError::Limit { found });
        }
        let Ok(reached) = reached_of(alloc, types, m, owner, graph, sources.as_slice()) else {
            return Err(FlowError::NoMemory);
        };
        Ok(Flow {
            graph,
            sources,
            reached,
        })
    }

    /// The flow of values in the body of a method of a world that a link gave, whose body, signature and locals have a reading. The
    /// graph is the method's.
    pub fn of(
        alloc: Global,
        types: &Types<'_>,
        graph: &'g Graph,
        m: MethodId,
    ) -> Result<Flow<'g>, FlowError>
        requires world { IsWorld types.now }
        requires graph { IsItsGraph types.now.recs m graph.now }
        ensures { IsFlowOf types.now.recs m graph.now result }
    {
        let world = types.world();
        let method = match method_of(world, m) {
            Err(_) => return Err(FlowError::NoMemory),
            Ok(None) => return Err(FlowError::NoMemory),
            Ok(Some(method)) => method,
        };
        match owner_of(world.recs.as_slice(), m) {
            Err(_) => Err(FlowError::NoMemory),
            Ok(owner) => Flow::of_method(alloc, types, &method, owner, graph),
        }
    }

    /// The sources of the body, each once: Null, Opaque, the parameters, then those of each instruction.
    pub fn sources(&self) -> &Seq<Source>
        ensures { result.now ≡ self.now.sources }
    {
        &self.sources
    }

    /// Whether a source, by its place in the list, is carried to a slot at the instruction at an offset.
    pub fn has(&self, at: u32, slot: u32, source: u32) -> bool
        ensures is { result ≡ is_carried self.now at slot source }
        ensures exact { (recs : List AsmRec) (s : Setting) (owner : Option TypeId) (g : Graph) → IsFlow recs s owner g self.now → result ≡ true ↔ Carries recs s owner g.depths at slot source }
    {
        self.reached.has(self.graph.places().get(at), slot, source)
    }

    /// The depth of the evaluation stack before the instruction at an offset, as the graph has it.
    pub fn depth(&self, at: u32) -> Option<u32>
        ensures { result ≡ depth_of self.now.graph.now at }
    {
        self.graph.depth(at)
    }
}
