//! Why the values of a body have no flow.

ghost use Rattle.std.specs.Prelude.{◌≡◌, IfOk};
ghost use Rattle.rules.specs.link_rules.Cycles.{listed};
ghost use Rattle.rules.specs.flow_rules.Flows.{work_of};
ghost use Rattle.rules.specs.mark_rules.FlowFlaws.{over_limit, flow_faults, faults_of_flow};
ghost use Rattle.mark_parts.specs.mark_tables.Assemblies.{all_of, IsMarker};
ghost use Rattle.value_flow.specs.body_graph.Methods.{setting_in, IsHere};
ghost use Rattle.value_flow.specs.body_graph.Graphs.{IsGraph};

use crate::owners::owner_at;
use il_base::world_model::BadKind;
use il_base::{NoMemory, TypeId, limit, outside};
use mark_parts::mark_tables::marker::Marker;
use rules::link_rules::RowAt;
use std::alloc::Global;
use type_system::Types;
use value_flow::body_graph::methods::{Method, method_at};
use value_flow::body_graph::{Graph, GraphError};
use value_flow::{MOST_WORK, work_in};

/// The fault of a body for which slots times instructions times sources is `found`.
fn over_limit(found: u64) -> Option<BadKind>
    ensures { listed result ≡ over_limit found }
{
    if found <= MOST_WORK {
        return None;
    }
    Some(BadKind::Over {
        which: limit::FLOW,
        found,
    })
}

/// Why a body with depths has no flow: it is over the limit.
fn fault_of_graph(
    alloc: Global,
    types: &Types<'_>,
    m: &Method<'_>,
    owner: Option<TypeId>,
    graph: &Graph,
) -> Result<Option<BadKind>, NoMemory>
    requires here { IsHere m.now }
    requires types { types.now ≡ m.now.world.now }
    requires graph { IsGraph m.now.world.now.recs (setting_in m.now) graph.now }
    ensures { IfOk result (λ why. listed why ≡ over_limit (work_of m.now.world.now.recs (setting_in m.now) owner graph.now.depths)) }
{
    let found = work_in(alloc, types, m, owner, graph)?;
    Ok(over_limit(found))
}

/// Why a body has no flow.
fn fault_of(
    alloc: Global,
    types: &Types<'_>,
    m: &Method<'_>,
    owner: Option<TypeId>,
) -> Result<Option<BadKind>, NoMemory>
    requires here { IsHere m.now }
    requires types { types.now ≡ m.now.world.now }
    ensures { IfOk result (λ why. listed why ≡ flow_faults m.now.world.now.recs owner (setting_in m.now)) }
{
    match Graph::of_method(alloc, m) {
        Err(GraphError::NoMemory) => Err(NoMemory),
        Err(GraphError::Bad) => Ok(Some(BadKind::Outside(outside::STACK))),
        Ok(graph) => {
            let fault = fault_of_graph(alloc, types, m, owner, &graph)?;
            Ok(fault)
        }
    }
}

/// Why the values of a method's body have no flow, by the method's row: `Outside` with `outside::STACK`, or `Over` with
/// `limit::FLOW` and the work found. None for a body that has a flow, and for a method without a body, or whose body, signature or
/// locals have no reading.
#[tactic(auto, unfolding(rules::specs::mark_rules::FlowFlaws::faults_of_flow))]
pub fn fault_at(
    alloc: Global,
    marker: &Marker<'_>,
    types: &Types<'_>,
    at: RowAt,
) -> Result<Option<BadKind>, NoMemory>
    requires marker { IsMarker marker.now }
    requires types { types.now ≡ marker.now.tables.world.now }
    ensures { IfOk result (λ why. listed why ≡ faults_of_flow (all_of marker.now) at) }
{
    let Some(method) = method_at(marker.tables.world, at) else {
        return Ok(None);
    };
    let owner = owner_at(marker, at)?;
    fault_of(alloc, types, &method, owner)
}
