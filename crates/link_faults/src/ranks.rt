//! A fast check that no node of a graph is on a cycle: all edges lead to smaller ranks.

ghost use Rattle.std.specs.Prelude.{◌≡◌, IfOk};
ghost use Rattle.std.specs.Bool.{OnTrue};
ghost use Rattle.std.specs.List.{list_all};
ghost use Rattle.link_faults.specs.Graphs.{rank_of, is_lower, goes_down, IsAcyclic};

use crate::graph::next_in;
use il_base::{NoMemory, Seq};
use std::alloc::Global;

/// A search through a graph, depth first.
#[derive(Drop)]
struct Search<'a> {
    graph: &'a [Seq<u32>],
    /// The rank of each node, from 1 as soon as all that is reachable from it was searched, else 0.
    ranks: Vec<u32>,
    met: Vec<bool>,
    /// The nodes whose search has begun, each with the number of its edges that were followed.
    open: Vec<(u32, usize)>,
    last: u32,
}

impl<'a> Search<'a> {
    fn new(alloc: Global, graph: &'a [Seq<u32>]) -> Result<Search<'a>, NoMemory> {
        let ranks = vec![in alloc; 0; graph.len()]?;
        let met = vec![in alloc; false; graph.len()]?;
        Ok(Search {
            graph,
            ranks,
            met,
            open: Vec::new(alloc),
            last: 0,
        })
    }

    /// Begins with a node, unless it was met before.
    fn begin(&mut self, node: u32) -> Result<(), NoMemory> {
        if let Some(met) = self.met.get_mut(node as usize) {
            if !*met {
                *met = true;
                self.open.push((node, 0))?;
            }
        }
        Ok(())
    }

    /// Goes on with an open node: along its next edge, or to its rank.
    fn go_on(&mut self, node: u32, looked: usize) -> Result<(), NoMemory> {
        if let Some(led) = next_in(self.graph, node).get(looked) {
            self.open.push((node, looked.saturating_add(1)))?;
            return self.begin(*led);
        }
        self.last = self.last.saturating_add(1);
        if let Some(rank) = self.ranks.get_mut(node as usize) {
            *rank = self.last;
        }
        Ok(())
    }
}

/// Ranks of the nodes. Where no node is on a cycle, all edges lead to smaller ranks.
fn ranks(alloc: Global, graph: &[Seq<u32>]) -> Result<Vec<u32>, NoMemory> {
    let mut search = Search::new(alloc, graph)?;
    for node in 0..u32::try_from(graph.len()).map_err(|_| NoMemory)? {
        search.begin(node)?;
        for _ in 0..u64::MAX {
            let Some((open, looked)) = search.open.pop() else {
                break;
            };
            search.go_on(open, looked)?;
        }
    }
    let Search { ranks, .. } = search;
    Ok(ranks)
}

/// The rank of a node; 0 where there is no such node.
pub(crate) fn rank_of(ranks: &[u32], node: usize) -> u32
    ensures { result ≡ rank_of ranks.now node }
{
    match ranks.get(node) {
        Some(rank) => *rank,
        None => 0,
    }
}

/// Whether all of these nodes have smaller ranks.
pub(crate) fn are_lower(ranks: &[u32], rank: u32, nodes: &[u32]) -> bool
    ensures { result ≡ list_all (is_lower ranks.now rank) nodes.now }
{
    nodes
        .iter()
        .all(|node| rank_of(ranks, *node as usize) < rank)
}

/// Whether all edges of a graph lead to smaller ranks.
fn goes_down(ranks: &[u32], graph: &[Seq<u32>]) -> bool
    ensures { result ≡ goes_down ranks.now 0 graph.now }
{
    for (node, led) in graph.iter().enumerate() {
        if !are_lower(ranks, rank_of(ranks, node), led.as_slice()) {
            return false;
        }
    }
    true
}

/// A fast check that no node is on a cycle: true only where none is.
pub(crate) fn is_acyclic(alloc: Global, graph: &[Seq<u32>]) -> Result<bool, NoMemory>
    ensures { IfOk result (λ yes. OnTrue yes (IsAcyclic graph.now)) }
{
    let ranks = ranks(alloc, graph)?;
    Ok(goes_down(&ranks, graph))
}
