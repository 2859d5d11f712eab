//! Levels of the nodes of a graph: numbers such that no edge leads to a greater level. A node whose edges all lead to smaller
//! levels is on no cycle, so searches begin only at the others.

ghost use Rattle.std.specs.Prelude.{◌≡◌, nat_eq, IfOk};
ghost use Rattle.std.specs.List.{list_all};
ghost use Rattle.rules.specs.link_rules.Cycles.{is_on_cycle};
ghost use Rattle.link_faults.specs.Graphs.{next_in, rank_of, is_lower, is_within, never_up, AreLevels};

use crate::graph::{leads_to_itself, next_in};
use crate::ranks::{are_lower, rank_of};
use il_base::{NoMemory, Seq};
use std::alloc::Global;

/// A search for the strongly connected components of a graph, depth first (Tarjan).
#[derive(Drop)]
struct Search<'a> {
    graph: &'a [Seq<u32>],
    /// The number of each node in the order in which nodes are met, from 1; 0 before it is met.
    met: Vec<u32>,
    /// For each node the least number, in `met`, of the nodes without a level that are known to be reachable from it.
    low: Vec<u32>,
    /// The component of each node, from 1; 0 before it is known.
    levels: Vec<u32>,
    /// The nodes that were met and have no level.
    waiting: Vec<u32>,
    /// The nodes whose search has begun, each with the number of its edges that were followed.
    open: Vec<(u32, usize)>,
    last_met: u32,
    last_level: u32,
}

/// The node to which the edge at this place leads from a node.
fn led_at(graph: &[Seq<u32>], node: u32, at: usize) -> Option<u32> {
    match next_in(graph, node).get(at) {
        Some(led) => Some(*led),
        None => None,
    }
}

/// Gives a node a number, where there is such a node.
fn set(numbers: &mut [u32], node: u32, number: u32) {
    if let Some(old) = numbers.get_mut(node as usize) {
        *old = number;
    }
}

impl<'a> Search<'a> {
    fn new(alloc: Global, graph: &'a [Seq<u32>]) -> Result<Search<'a>, NoMemory> {
        let met = vec![in alloc; 0; graph.len()]?;
        let low = vec![in alloc; 0; graph.len()]?;
        let levels = vec![in alloc; 0; graph.len()]?;
        Ok(Search {
            graph,
            met,
            low,
            levels,
            waiting: Vec::new(alloc),
            open: Vec::new(alloc),
            last_met: 0,
            last_level: 0,
        })
    }

    /// Begins with a node, unless it was met before.
    fn begin(&mut self, node: u32) -> Result<(), NoMemory> {
        if (node as usize) < self.graph.len() && rank_of(&self.met, node as usize) == 0 {
            self.last_met = self.last_met.saturating_add(1);
            set(&mut self.met, node, self.last_met);
            set(&mut self.low, node, self.last_met);
            self.waiting.push(node)?;
            self.open.push((node, 0))?;
        }
        Ok(())
    }

    /// Follows an edge to a node that was met: what is reachable from that node is reachable from this one.
    fn learn(&mut self, node: u32, led: u32) {
        let low = rank_of(&self.low, led as usize);
        let has_level = rank_of(&self.levels, led as usize) > 0;
        if !has_level && low > 0 && low < rank_of(&self.low, node as usize) {
            set(&mut self.low, node, low);
        }
    }

    /// Ends with a node: where no earlier node is reachable from it, it and the nodes that wait after it are a component.
    fn end(&mut self, node: u32) {
        if rank_of(&self.low, node as usize) < rank_of(&self.met, node as usize) {
            return;
        }
        self.last_level = self.last_level.saturating_add(1);
        for _ in 0..u64::MAX {
            let Some(waiting) = self.waiting.pop() else {
                break;
            };
            set(&mut self.levels, waiting, self.last_level);
            if waiting == node {
                break;
            }
        }
    }

    /// Goes on with an open node: along its next edge, or to its end.
    fn go_on(&mut self, node: u32, looked: usize) -> Result<(), NoMemory> {
        if looked > 0 {
            if let Some(led) = led_at(self.graph, node, looked - 1) {
                self.learn(node, led);
            }
        }
        if let Some(led) = led_at(self.graph, node, looked) {
            self.open.push((node, looked.saturating_add(1)))?;
            return self.begin(led);
        }
        self.end(node);
        Ok(())
    }
}

/// The number of each node's strongly connected component, from 1; edges lead only to components of the same or a smaller number.
fn components(alloc: Global, graph: &[Seq<u32>]) -> Result<Vec<u32>, NoMemory> {
    let mut search = Search::new(alloc, graph)?;
    for node in 0..u32::try_from(graph.len()).map_err(|_| NoMemory)? {
        search.begin(node)?;
        for _ in 0..u64::MAX {
            let Some((open, looked)) = search.open.pop() else {
                break;
            };
            search.go_on(open, looked)?;
        }
    }
    let Search { levels, .. } = search;
    Ok(levels)
}

/// Whether none of these nodes has a greater level.
fn are_within(levels: &[u32], level: u32, nodes: &[u32]) -> bool
    ensures { result ≡ list_all (is_within levels.now level) nodes.now }
{
    nodes
        .iter()
        .all(|node| rank_of(levels, *node as usize) <= level)
}

/// Whether no edge leads to a greater level.
fn never_up(levels: &[u32], graph: &[Seq<u32>]) -> bool
    ensures { result ≡ never_up levels.now 0 graph.now }
{
    for (node, led) in graph.iter().enumerate() {
        if !are_within(levels, rank_of(levels, node), led.as_slice()) {
            return false;
        }
    }
    true
}

/// Levels of the nodes. Where the search gave no levels, the list is empty, as if each level were 0.
#[tactic(auto, using(crate::proofs::Leveled::no_levels))]
pub(crate) fn levels_of(alloc: Global, graph: &[Seq<u32>]) -> Result<Vec<u32>, NoMemory>
    ensures { IfOk result (λ levels. AreLevels levels.items graph.now) }
{
    let levels = components(alloc, graph)?;
    if never_up(levels.as_slice(), graph) {
        return Ok(levels);
    }
    Ok(Vec::new(alloc))
}

/// Whether all edges of a node lead to smaller levels.
fn leads_down(levels: &[u32], graph: &[Seq<u32>], node: u32) -> bool
    ensures { result ≡ list_all (is_lower levels.now (rank_of levels.now node)) (next_in graph.now node) }
{
    are_lower(levels, rank_of(levels, node as usize), next_in(graph, node))
}

/// Whether a node is on a cycle that has at most `steps` further nodes, by the graph's levels.
#[tactic(auto, using(crate::proofs::Leveled::free))]
pub(crate) fn is_on_cycle(
    alloc: Global,
    graph: &[Seq<u32>],
    levels: &[u32],
    steps: usize,
    node: u32,
) -> Result<bool, NoMemory>
    requires { AreLevels levels.now graph.now }
    ensures { IfOk result (λ yes. yes ≡ is_on_cycle nat_eq (next_in graph.now) steps node) }
{
    if leads_down(levels, graph, node) {
        return Ok(false);
    }
    leads_to_itself(alloc, graph, steps, node)
}
