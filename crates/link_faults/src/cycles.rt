//! Types on a cycle: of bases, of interfaces, or of the value types in instance fields.

ghost use Rattle.std.specs.Prelude.{◌≡◌, ◌≤◌, length, take, IfOk};
ghost use Rattle.std.specs.Bool.{OnTrue};
ghost use Rattle.rules.specs.link_rules.Types.{at_row};
ghost use Rattle.rules.specs.link_rules.Faults.{first_of, is_cyclic_type, cyclic_type, cyclic_types};
ghost use Rattle.rules.specs.link_rules.Laws.{AreTypeLinks};
ghost use Rattle.link_faults.specs.Graphs.{IsAcyclic};
ghost use Rattle.link_faults.specs.TypeCycles.{Tells, AreGraphs, AreLeveled, HasType, HasAssembly};

use crate::bases::all_bases;
use crate::found::row_fault;
use crate::held::all_held;
use crate::interface_rows::{all_interfaces, interface_flags};
use crate::levels::{is_on_cycle, levels_of};
use crate::ranks::is_acyclic;
use crate::scope::Scope;
use crate::value_types::all_values;
use base_laws::link_laws::laws::links_tell;
use il_base::world_model::{AsmRec, TypeLink, type_id};
use il_base::{NoMemory, Seq, reason, table};
use rules::link_rules::LinkError;
use std::alloc::Global;

/// The three graphs over types, in the order of ids.
#[derive(Drop)]
struct Graphs {
    /// An edge to each type's base.
    bases: Vec<Seq<u32>>,
    /// Edges to each type's interfaces.
    interfaces: Vec<Seq<u32>>,
    /// Edges to the value types in the instance fields of each value type.
    held: Vec<Seq<u32>>,
}

/// Levels of the three graphs.
#[derive(Drop)]
struct GraphLevels {
    bases: Vec<u32>,
    interfaces: Vec<u32>,
    held: Vec<u32>,
}

impl Graphs {
    fn of(alloc: Global, scope: &Scope<'_>) -> Result<Graphs, NoMemory>
        ensures { IfOk result (λ graphs. AreGraphs scope.now.all.now scope.now.links.now graphs) }
    {
        let bases = all_bases(alloc, scope)?;
        let flags = interface_flags(alloc, scope)?;
        let interfaces = all_interfaces(alloc, scope, &flags)?;
        let values = all_values(alloc, scope)?;
        let held = all_held(alloc, scope, &values)?;
        Ok(Graphs {
            bases,
            interfaces,
            held,
        })
    }

    /// A fast check that no type is on a cycle: true only where none is.
    fn are_acyclic(&self, alloc: Global) -> Result<bool, NoMemory>
        ensures bases { IfOk result (λ yes. OnTrue yes (IsAcyclic self.now.bases.items)) }
        ensures interfaces { IfOk result (λ yes. OnTrue yes (IsAcyclic self.now.interfaces.items)) }
        ensures held { IfOk result (λ yes. OnTrue yes (IsAcyclic self.now.held.items)) }
    {
        if !is_acyclic(alloc, &self.bases)? {
            return Ok(false);
        }
        if !is_acyclic(alloc, &self.interfaces)? {
            return Ok(false);
        }
        is_acyclic(alloc, &self.held)
    }

    fn levels(&self, alloc: Global) -> Result<GraphLevels, NoMemory>
        ensures { IfOk result (λ levels. AreLeveled self.now levels) }
    {
        let bases = levels_of(alloc, &self.bases)?;
        let interfaces = levels_of(alloc, &self.interfaces)?;
        let held = levels_of(alloc, &self.held)?;
        Ok(GraphLevels {
            bases,
            interfaces,
            held,
        })
    }

    /// Whether the type in this row of an assembly is on a cycle.
    #[tactic(auto, unfolding(rules::specs::link_rules::Faults::is_cyclic_type))]
    fn is_cyclic(
        &self,
        alloc: Global,
        scope: &Scope<'_>,
        levels: &GraphLevels,
        file: usize,
        at: usize,
    ) -> Result<bool, NoMemory>
        requires told { Tells scope.now.all.now scope.now.links.now }
        requires graphs { AreGraphs scope.now.all.now scope.now.links.now self.now }
        requires levels { AreLeveled self.now levels.now }
        requires there { HasType scope.now.all.now file at }
        ensures { IfOk result (λ yes. yes ≡ is_cyclic_type scope.now.all.now (at_row file at)) }
    {
        let Some(id) = type_id(scope.all, file, at) else {
            return Err(NoMemory);
        };
        let bases = levels.bases.as_slice();
        if is_on_cycle(alloc, &self.bases, bases, scope.types, id.0)? {
            return Ok(true);
        }
        let interfaces = levels.interfaces.as_slice();
        if is_on_cycle(alloc, &self.interfaces, interfaces, scope.types, id.0)? {
            return Ok(true);
        }
        is_on_cycle(alloc, &self.held, levels.held.as_slice(), scope.types, id.0)
    }

    /// The first type of an assembly that is on a cycle, checked one by one.
    fn first_cyclic_in(
        &self,
        alloc: Global,
        scope: &Scope<'_>,
        levels: &GraphLevels,
        file: usize,
        rec: &AsmRec,
    ) -> Result<Option<LinkError>, NoMemory>
        requires told { Tells scope.now.all.now scope.now.links.now }
        requires graphs { AreGraphs scope.now.all.now scope.now.links.now self.now }
        requires levels { AreLeveled self.now levels.now }
        requires there { HasAssembly scope.now.all.now file rec.now }
        ensures { IfOk result (λ found. found ≡ first_of (cyclic_type scope.now.all.now file) 0 rec.now.type_def) }
    {
        for (at, _row) in rec.type_def.as_slice().iter().enumerate() {
            if self.is_cyclic(alloc, scope, levels, file, at)? {
                return Ok(Some(row_fault(file, reason::CYCLIC_TYPES, table::TYPE_DEF, at)?));
            }
        }
        Ok(None)
    }

    /// The first type of these assemblies that is on a cycle, checked one by one.
    #[tactic(auto, unfolding(rules::specs::link_rules::Faults::cyclic_types))]
    fn first_cyclic(
        &self,
        alloc: Global,
        scope: &Scope<'_>,
        inputs: usize,
    ) -> Result<Option<LinkError>, NoMemory>
        requires told { Tells scope.now.all.now scope.now.links.now }
        requires graphs { AreGraphs scope.now.all.now scope.now.links.now self.now }
        requires inputs { inputs ≤ length scope.now.all.now }
        ensures { IfOk result (λ found. found ≡ cyclic_types scope.now.all.now (take inputs scope.now.all.now)) }
    {
        let levels = self.levels(alloc)?;
        let recs = &scope.all[..inputs];
        for (file, rec) in recs.iter().enumerate() {
            let found = self.first_cyclic_in(alloc, scope, &levels, file, rec)?;
            if found.is_some() {
                return Ok(found);
            }
        }
        Ok(None)
    }
}

/// The first type among those of the first assemblies, `inputs` of them, that is on a cycle of bases, of interfaces or of
/// value types in instance fields (II.10.3, II.22.37). `links` are the links of the type tokens of all assemblies.
pub fn cyclic_types(
    alloc: Global,
    all: &[AsmRec],
    inputs: usize,
    links: &[TypeLink],
) -> Result<Option<LinkError>, NoMemory>
    requires told { AreTypeLinks all.now links.now }
    requires inputs { inputs ≤ length all.now }
    ensures { IfOk result (λ found. found ≡ cyclic_types all.now (take inputs all.now)) }
{
    links_tell();
    let scope = Scope::of(all, links)?;
    let graphs = Graphs::of(alloc, &scope)?;
    if graphs.are_acyclic(alloc)? {
        return Ok(None);
    }
    graphs.first_cyclic(alloc, &scope, inputs)
}
