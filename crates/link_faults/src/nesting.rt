//! Cycles of enclosing types.

ghost use Rattle.std.specs.Prelude.{◌≡◌, ℕ, suc, ◌<◌, ◌≤◌, ◌==◌, length, IfOk, OnOk, if◌then◌else◌};
ghost use Rattle.rules.specs.link_rules.Faults.{first_of, is_cyclic_around, cyclic_nesting_row, cyclic_nesting};
ghost use Rattle.rules.specs.link_rules.Types.{encloser};
ghost use Rattle.rules.specs.link_rules.Cycles.{listed};
ghost use Rattle.il_base.specs.declared.table.TheConstants.{TYPE_DEF};
ghost use Rattle.il_base.specs.world_model.Tokens.{index_in};
ghost use Rattle.link_faults.specs.Graphs.{next_in, AreLevels};
ghost use Rattle.link_faults.specs.Nesting.{IsAround};

use crate::found::row_fault;
use crate::graph::{list_of, next_in};
use crate::levels::{is_on_cycle, levels_of};
use crate::ranks::is_acyclic;
use il_base::world_model::{AsmRec, NestedClassRow, index_in};
use il_base::{NoMemory, Seq, reason, table};
use rules::link_rules::LinkError;
use std::alloc::Global;

/// The greatest number of a row, from 1, in a token.
const LAST_ROW: u32 = 0xff_ffff;

/// Adds nodes without edges, until there are this many.
#[tactic(auto, using(crate::proofs::Nexts::next_push))]
fn grow(alloc: Global, graph: &mut Vec<Seq<u32>>, nodes: usize) -> Result<(), NoMemory>
    ensures same { OnOk result ((node : ℕ) → next_in graph.new.items node ≡ next_in graph.old.items node) }
    ensures enough { OnOk result (nodes ≤ length graph.new.items) }
{
    for _count in graph.len()..nodes {
        graph.push(Seq::new(alloc))?;
    }
    Ok(())
}

/// Sets the edges of a node: one to this node, or none.
#[tactic(auto, using(crate::proofs::Nexts::next_set))]
fn lead(
    alloc: Global,
    graph: &mut Vec<Seq<u32>>,
    node: u32,
    to: Option<u32>,
) -> Result<(), NoMemory>
    ensures { OnOk result ((other : ℕ) → next_in graph.new.items other ≡ (if node == other then listed to else next_in graph.old.items other)) }
{
    let led = list_of(alloc, to)?;
    grow(alloc, graph, node as usize + 1)?;
    graph[node as usize] = led;
    Ok(())
}

/// The graph of enclosers by rows of NestedClass (II.22.32), with an edge from each type to its encloser: of two rows on one type
/// the first counts.
fn enclosers_by(alloc: Global, rows: &[NestedClassRow]) -> Result<Vec<Seq<u32>>, NoMemory>
    ensures { IfOk result (λ graph. IsAround rows.now graph.items) }
{
    let mut graph = Vec::new(alloc);
    for at in (0..rows.len()).rev() {
        let row = &rows[at];
        if let Some(nested) = index_in(table::TYPE_DEF, row.nested_class) {
            lead(
                alloc,
                &mut graph,
                nested,
                index_in(table::TYPE_DEF, row.enclosing_class),
            )?;
        }
    }
    Ok(graph)
}

/// The graph of enclosers of an assembly.
pub(crate) fn enclosers(alloc: Global, rec: &AsmRec) -> Result<Vec<Seq<u32>>, NoMemory>
    ensures { IfOk result (λ graph. IsAround rec.now.nested_class graph.items) }
{
    enclosers_by(alloc, rec.nested_class.as_slice())
}

/// The type that encloses this one, if one does. A row that no token can name is answered with want of memory.
pub(crate) fn encloser<'a>(
    rec: &AsmRec,
    graph: &'a [Seq<u32>],
    at: usize,
) -> Result<&'a [u32], NoMemory>
    requires { IsAround rec.now.nested_class graph.now }
    ensures { IfOk result (λ around. around.now ≡ listed (encloser rec.now at)) }
{
    match u32::try_from(at) {
        Ok(node) => {
            if node < LAST_ROW {
                Ok(next_in(graph, node))
            } else {
                Err(NoMemory)
            }
        }
        Err(_) => Err(NoMemory),
    }
}

/// Whether the encloser of a type is on a cycle, by the types that the rows of NestedClass name.
fn is_cyclic_around(
    alloc: Global,
    rec: &AsmRec,
    graph: &[Seq<u32>],
    levels: &[u32],
    row: &NestedClassRow,
) -> Result<bool, NoMemory>
    requires around { IsAround rec.now.nested_class graph.now }
    requires levels { AreLevels levels.now graph.now }
    ensures { IfOk result (λ yes. yes ≡ is_cyclic_around rec.now (index_in TYPE_DEF row.now.nested_class)) }
{
    match index_in(table::TYPE_DEF, row.nested_class) {
        None => Ok(false),
        Some(nested) => is_on_cycle(alloc, graph, levels, rec.type_def.len(), nested),
    }
}

/// The first row of NestedClass of an assembly whose encloser is on a cycle, checked one by one.
fn cyclic_row(
    alloc: Global,
    file: usize,
    rec: &AsmRec,
    graph: &[Seq<u32>],
    levels: &[u32],
) -> Result<Option<LinkError>, NoMemory>
    requires around { IsAround rec.now.nested_class graph.now }
    requires levels { AreLevels levels.now graph.now }
    ensures { IfOk result (λ found. found ≡ first_of (cyclic_nesting_row rec.now file) 0 rec.now.nested_class) }
{
    for (at, row) in rec.nested_class.as_slice().iter().enumerate() {
        if is_cyclic_around(alloc, rec, graph, levels, row)? {
            return Ok(Some(row_fault(file, reason::CYCLIC_NESTING, table::NESTED_CLASS, at)?));
        }
    }
    Ok(None)
}

/// The first row of NestedClass of an assembly whose encloser is on a cycle.
fn cyclic_nesting_in(
    alloc: Global,
    file: usize,
    rec: &AsmRec,
) -> Result<Option<LinkError>, NoMemory>
    ensures { IfOk result (λ found. found ≡ first_of (cyclic_nesting_row rec.now file) 0 rec.now.nested_class) }
{
    let graph = enclosers(alloc, rec)?;
    if is_acyclic(alloc, &graph)? {
        return Ok(None);
    }
    let levels = levels_of(alloc, &graph)?;
    cyclic_row(alloc, file, rec, &graph, &levels)
}

/// The first row of NestedClass (II.22.32) whose encloser is on a cycle, assembly by assembly.
#[tactic(auto, unfolding(rules::specs::link_rules::Faults::cyclic_nesting))]
pub fn cyclic_nesting(alloc: Global, recs: &[AsmRec]) -> Result<Option<LinkError>, NoMemory>
    ensures { IfOk result (λ found. found ≡ cyclic_nesting recs.now) }
{
    for (file, rec) in recs.iter().enumerate() {
        let found = cyclic_nesting_in(alloc, file, rec)?;
        if found.is_some() {
            return Ok(found);
        }
    }
    Ok(None)
}
