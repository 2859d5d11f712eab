//! The graph.

use crate::body_graph::exits::{edges_of, exits_of};
use crate::body_graph::methods::{Method, method_of};
use crate::body_graph::places::Places;
use crate::stack_depths::depths;
use il_base::world_model::World;
use il_base::{MethodId, NoMemory, Seq};
use rules::flow_rules::Exit;
use std::alloc::Global;

/// Where control goes in a body, and how deep the evaluation stack is (III.1.7.4). Instructions are named by their IL offsets.
#[derive(Drop)]
pub struct Graph {
    places: Places,
    exits: Seq<Exit>,
    edges: Seq<Seq<u32>>,
    depths: Seq<Option<u32>>,
    none: Seq<u32>,
}

/// Why a body has no graph.
#[derive(Clone, Copy, Debug, PartialEq, Eq)]
pub enum GraphError {
    /// Two walks reach one instruction with different depths, a depth falls below 0 or passes the most that the body allows, a
    /// branch leaves the instructions, or a walk runs past the last one. A body without instructions is among these.
    Bad,
    NoMemory,
}

impl From<NoMemory> for GraphError {
    fn from(_error: NoMemory) -> GraphError {
        GraphError::NoMemory
    }
}

impl Graph {
    ghost use Rattle.std.specs.Prelude.{◌≡◌, ℕ, List, Some, ◌↔◌, MatchResult};
    ghost use Rattle.il_base.specs.declared.world_model.record.AsmRec.{AsmRec};
    ghost use Rattle.rules.specs.link_rules.Linked.{IsWorld};
    ghost use Rattle.rules.specs.flow_rules.Depths.{Reaches};
    ghost use Rattle.rules.specs.flow_rules.Methods.{Setting};
    ghost use Rattle.rules.specs.flow_rules.Steps.{offsets, place_in};
    ghost use Rattle.rules.specs.flow_rules.Exits.{edges_of, exits_of};
    ghost use Rattle.value_flow.specs.body_graph.Methods.{setting_in, IsHere};
    ghost use Rattle.value_flow.specs.body_graph.Graphs.{IsGraph, IsFault, IsGraphOf, edges_at, depth_of};

    /// The graph of a method that is here.
    pub fn of_method(alloc: Global, m: &Method<'_>) -> Result<Graph, GraphError>
        requires { IsHere m.now }
        ensures { MatchResult result (IsGraph m.now.world.now.recs (setting_in m.now)) (IsFault m.now.world.now.recs (setting_in m.now)) }
    {
        let code = m.body.code.as_slice();
        let Ok(places) = Places::of(alloc, code) else {
            return Err(GraphError::NoMemory);
        };
        let Ok(exits) = exits_of(alloc, m, &places) else {
            return Err(GraphError::NoMemory);
        };
        let Ok(edges) = edges_of(alloc, code, exits.as_slice()) else {
            return Err(GraphError::NoMemory);
        };
        match depths(alloc, exits.as_slice(), u32::from(m.body.max_stack)) {
            Err(_) => Err(GraphError::NoMemory),
            Ok(None) => Err(GraphError::Bad),
            Ok(Some(depths)) => Ok(Graph {
                places,
                exits,
                edges,
                depths,
                none: Seq::new(alloc),
            }),
        }
    }

    /// The graph of a method of a world that a link gave, whose body, signature and locals have a reading.
    pub fn of(alloc: Global, world: &World, m: MethodId) -> Result<Graph, GraphError>
        requires { IsWorld world.now }
        ensures { IsGraphOf world.now.recs m result }
    {
        match method_of(world, m) {
            Err(_) => Err(GraphError::NoMemory),
            Ok(None) => Err(GraphError::Bad),
            Ok(Some(method)) => Graph::of_method(alloc, &method),
        }
    }

    /// The offsets of the instructions where control goes from the instruction at an offset; none where no instruction begins
    /// there.
    pub fn edges(&self, at: u32) -> &Seq<u32>
        ensures is { result.now ≡ edges_at self.now at }
        ensures exact { (recs : List AsmRec) (s : Setting) → IsGraph recs s self.now → result.now ≡ edges_of recs s at }
    {
        match self.edges.get(self.places.get(at)) {
            None => &self.none,
            Some(edges) => edges,
        }
    }

    /// The depth of the evaluation stack before the instruction at an offset. None for one that no walk reaches, and where no
    /// instruction begins.
    pub fn depth(&self, at: u32) -> Option<u32>
        ensures is { result ≡ depth_of self.now at }
        ensures exact { (recs : List AsmRec) (s : Setting) → IsGraph recs s self.now → (d : ℕ) → result ≡ Some d ↔ Reaches (exits_of recs s) (place_in (offsets s.body.code) at) d }
    {
        match self.depths.get(self.places.get(at)) {
            None => None,
            Some(depth) => *depth,
        }
    }

    /// The instructions by their offsets.
    pub fn places(&self) -> &Places
        ensures { result.now ≡ self.now.places }
    {
        &self.places
    }

    /// The ways out of each instruction, in the order of the code.
    pub fn exits(&self) -> &[Exit]
        ensures { result.now ≡ self.now.exits }
    {
        self.exits.as_slice()
    }

    /// The depth at each instruction, in the order of the code.
    pub fn depths(&self) -> &[Option<u32>]
        ensures { result.now ≡ self.now.depths }
    {
        self.depths.as_slice()
    }
}
