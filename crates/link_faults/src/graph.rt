//! The nodes reachable in a graph. A graph has a list for each node, counted from 0: the nodes to which an edge leads from it.

ghost use Rattle.std.specs.Prelude.{◌≡◌, ◌≤◌, [], ◌∷◌, ◌++◌, drop, length, nat_eq, IfOk, OnOk};
ghost use Rattle.std.specs.List.{flat_map, list_any};
ghost use Rattle.rules.specs.link_rules.Cycles.{listed, add_new, add_all, led_to, is_on_cycle};
ghost use Rattle.link_faults.specs.Graphs.{next_in, marked, AreMarked};

use il_base::{NoMemory, Seq};
use std::alloc::Global;

/// The nodes to which an edge leads from a node; none where there is no such node.
pub(crate) fn next_in(graph: &[Seq<u32>], node: u32) -> &[u32]
    ensures { result.now ≡ next_in graph.now node }
{
    match graph.get(node as usize) {
        Some(led) => led.as_slice(),
        None => &[],
    }
}

/// A list of this node, or an empty one.
pub(crate) fn list_of(alloc: Global, node: Option<u32>) -> Result<Seq<u32>, NoMemory>
    ensures { IfOk result (λ nodes. nodes ≡ listed node) }
{
    let mut nodes = Seq::new(alloc);
    if let Some(node) = node {
        nodes.push(node)?;
    }
    Ok(nodes)
}

/// Whether a node is among some.
fn is_among(nodes: &[u32], node: u32) -> bool
    ensures { result ≡ list_any (nat_eq node) nodes.now }
{
    nodes.iter().any(|other| node == *other)
}

/// Nodes that were found, and for each node of the graph whether it is among them.
#[derive(Drop)]
struct Found {
    nodes: Seq<u32>,
    marks: Vec<bool>,
}

/// Nothing found yet, in a graph of this many nodes.
fn none_found(alloc: Global, graph: usize) -> Result<Found, NoMemory>
    ensures empty { IfOk result (λ found. found.nodes ≡ []) }
    ensures marked { IfOk result (λ found. AreMarked found.marks.items found.nodes) }
{
    let marks = vec![in alloc; false; graph]?;
    Ok(Found {
        nodes: Seq::new(alloc),
        marks,
    })
}

/// Whether a node was found. One that isn't in the graph is searched in the list.
fn was_found(marks: &[bool], nodes: &[u32], node: u32) -> bool
    requires { AreMarked marks.now nodes.now }
    ensures { result ≡ list_any (nat_eq node) nodes.now }
{
    if (node as usize) < marks.len() {
        marks[node as usize]
    } else {
        is_among(nodes, node)
    }
}

/// Marks a node of the graph.
fn mark(marks: &mut [bool], node: u32)
    ensures { marks.new ≡ marked marks.old node }
{
    if (node as usize) < marks.len() {
        marks[node as usize] = true;
    }
}

/// Puts a node at the end.
fn put(found: &mut Found, node: u32) -> Result<(), NoMemory>
    requires { AreMarked found.old.marks.items found.old.nodes }
    ensures added { OnOk result (found.new.nodes ≡ found.old.nodes ++ node ∷ []) }
    ensures marked { OnOk result (AreMarked found.new.marks.items found.new.nodes) }
{
    mark(&mut found.marks, node);
    found.nodes.push(node)
}

/// Puts a node at the end, where it wasn't found before.
fn add_new(found: &mut Found, node: u32) -> Result<(), NoMemory>
    requires { AreMarked found.old.marks.items found.old.nodes }
    ensures added { OnOk result (found.new.nodes ≡ add_new nat_eq found.old.nodes node) }
    ensures marked { OnOk result (AreMarked found.new.marks.items found.new.nodes) }
{
    if was_found(&found.marks, found.nodes.as_slice(), node) {
        return Ok(());
    }
    put(found, node)
}

fn add_all(found: &mut Found, nodes: &[u32]) -> Result<(), NoMemory>
    requires { AreMarked found.old.marks.items found.old.nodes }
    ensures added { OnOk result (found.new.nodes ≡ add_all nat_eq found.old.nodes nodes.now) }
    ensures marked { OnOk result (AreMarked found.new.marks.items found.new.nodes) }
{
    for node in nodes {
        add_new(found, *node)?;
    }
    Ok(())
}

/// The nodes to which an edge leads from some nodes, those of each node in order.
fn led_by(alloc: Global, graph: &[Seq<u32>], nodes: &[u32]) -> Result<Seq<u32>, NoMemory>
    ensures { IfOk result (λ led. led ≡ flat_map (next_in graph.now) nodes.now) }
{
    let mut led = Seq::new(alloc);
    for node in nodes {
        led.extend_from_slice(next_in(graph, *node))?;
    }
    Ok(led)
}

/// Adds the nodes to which an edge leads from those at `start` and after it, where they weren't found before.
fn add_round(
    alloc: Global,
    graph: &[Seq<u32>],
    found: &mut Found,
    start: usize,
) -> Result<(), NoMemory>
    requires marked { AreMarked found.old.marks.items found.old.nodes }
    requires start { start ≤ length found.old.nodes }
    ensures added { OnOk result (found.new.nodes ≡ add_all nat_eq found.old.nodes (flat_map (next_in graph.now) (drop start found.old.nodes))) }
    ensures marked { OnOk result (AreMarked found.new.marks.items found.new.nodes) }
{
    let led = led_by(alloc, graph, &found.nodes.as_slice()[start..])?;
    add_all(found, led.as_slice())
}

/// The nodes that a search begins with, as found.
fn found_first(alloc: Global, graph: usize, nodes: &[u32]) -> Result<Found, NoMemory>
    ensures added { IfOk result (λ found. found.nodes ≡ nodes.now) }
    ensures marked { IfOk result (λ found. AreMarked found.marks.items found.nodes) }
{
    let mut found = none_found(alloc, graph)?;
    for node in nodes {
        put(&mut found, *node)?;
    }
    Ok(found)
}

/// All nodes reachable in at most `steps` edges, `nodes` included. A round goes only from the nodes that the last one found, and
/// the search ends as soon as a round finds nothing new.
fn led_to(alloc: Global, graph: &[Seq<u32>], steps: usize, nodes: &[u32]) -> Result<Found, NoMemory>
    ensures found { IfOk result (λ found. found.nodes ≡ led_to nat_eq (next_in graph.now) steps nodes.now) }
    ensures marked { IfOk result (λ found. AreMarked found.marks.items found.nodes) }
{
    let mut found = found_first(alloc, graph.len(), nodes)?;
    let mut looked_at = 0;
    for step in 0..steps {
        let before = found.nodes.len();
        add_round(alloc, graph, &mut found, looked_at)?;
        if found.nodes.len() == before {
            return Ok(found);
        }
        looked_at = before;
    }
    Ok(found)
}

/// Whether a node is on a cycle that has at most `steps` further nodes.
#[tactic(auto, unfolding(rules::specs::link_rules::Cycles::is_on_cycle))]
pub(crate) fn leads_to_itself(
    alloc: Global,
    graph: &[Seq<u32>],
    steps: usize,
    node: u32,
) -> Result<bool, NoMemory>
    ensures { IfOk result (λ yes. yes ≡ is_on_cycle nat_eq (next_in graph.now) steps node) }
{
    let found = led_to(alloc, graph, steps, next_in(graph, node))?;
    Ok(was_found(&found.marks, found.nodes.as_slice(), node))
}
