//! The sites of methods.

ghost use Rattle.std.specs.Prelude.{◌≡◌, ◌++◌, Some, IfOk, OnOk};
ghost use Rattle.rules.specs.type_rules.Slots.{method_home};
ghost use Rattle.rules.specs.flow_rules.Flows.{owner_at};
ghost use Rattle.rules.specs.flow_rules.Methods.{setting_at};
ghost use Rattle.rules.specs.site_rules.Arguments.{sites_of_parts};
ghost use Rattle.rules.specs.site_rules.Items.{signature_parts, method_sites};
ghost use Rattle.mark_parts.specs.mark_tables.Assemblies.{all_of, IsMarker};
ghost use Rattle.value_flow.specs.body_graph.Methods.{setting_in, IsHere};
ghost use Rattle.value_flow.specs.body_graph.Graphs.{IsGraph};
ghost use Rattle.mark_flow.specs.Tables.{recs_in, AreFlowTables};

use crate::owners::owner_at;
use crate::tables::FlowTables;
use il_base::world_model::token_of;
use il_base::{MethodId, NoMemory, Seq, TypeId, table};
use mark_parts::mark_facts::parts::Parts;
use mark_parts::mark_tables::marker::Marker;
use mark_parts::sigs::add_method_sig;
use requirements::generic_sites::named::put_parts;
use requirements::sites;
use rules::link_rules::RowAt;
use rules::site_rules::Site;
use std::alloc::Global;
use value_flow::body_graph::methods::{Method, method_at};
use value_flow::body_graph::{Graph, GraphError};
use value_flow::{Flow, FlowError};

/// Adds the parts of a method's signature.
#[tactic(auto, using(crate::proofs::Lists::none_more))]
fn add_signature(
    alloc: Global,
    marker: &Marker<'_>,
    at: RowAt,
    parts: &mut Parts,
) -> Result<(), NoMemory>
    requires { IsMarker marker.now }
    ensures { OnOk result (parts.new ≡ parts.old ++ signature_parts (all_of marker.now) at) }
{
    let Some(asm) = marker.assembly_at(at.asm) else {
        return Ok(());
    };
    let Some(m) = asm.scope.rec.method_def.get(at.row as usize) else {
        return Ok(());
    };
    let row = token_of(table::METHOD_DEF, at.row as usize)?;
    add_method_sig(alloc, &asm, row, &m.signature, parts)
}

/// The sites of a method's signature.
fn signature_sites(
    alloc: Global,
    tables: &FlowTables<'_>,
    owner: Option<TypeId>,
    at: RowAt,
) -> Result<Seq<Site>, NoMemory>
    requires { AreFlowTables tables.now }
    ensures { IfOk result (λ found. found ≡ sites_of_parts (recs_in tables.now) at.asm owner (signature_parts (recs_in tables.now) at)) }
{
    let annotated = &tables.annotated;
    let mut parts = Parts::new(alloc);
    add_signature(alloc, annotated.marker, at, &mut parts)?;
    let mut found = Seq::new(alloc);
    put_parts(alloc, annotated, at.asm, owner, &parts, &mut found)?;
    Ok(found)
}

/// The sites of a method whose body has depths.
fn sites_by_graph(
    alloc: Global,
    tables: &FlowTables<'_>,
    id: MethodId,
    at: RowAt,
    m: &Method<'_>,
    owner: Option<TypeId>,
    graph: &Graph,
) -> Result<Seq<Site>, NoMemory>
    requires tables { AreFlowTables tables.now }
    requires here { IsHere m.now }
    requires same { recs_in tables.now ≡ m.now.world.now.recs }
    requires types { tables.now.types.now ≡ m.now.world.now }
    requires home { method_home m.now.world.now.recs id ≡ Some at }
    requires method { setting_at m.now.world.now.recs at ≡ Some (setting_in m.now) }
    requires owner { owner ≡ owner_at m.now.world.now.recs at }
    requires graph { IsGraph m.now.world.now.recs (setting_in m.now) graph.now }
    ensures { IfOk result (λ found. found ≡ method_sites m.now.world.now.recs id at) }
{
    match Flow::of_method(alloc, tables.types, m, owner, graph) {
        Err(FlowError::NoMemory) => Err(NoMemory),
        Err(FlowError::Limit { .. }) => {
            let found = signature_sites(alloc, tables, owner, at)?;
            Ok(found)
        }
        Ok(flow) => {
            let found = sites(alloc, &tables.annotated, &flow, id)?;
            Ok(found)
        }
    }
}

/// The sites of a method whose body, signature and locals have a reading.
fn sites_of_method(
    alloc: Global,
    tables: &FlowTables<'_>,
    id: MethodId,
    at: RowAt,
    m: &Method<'_>,
    owner: Option<TypeId>,
) -> Result<Seq<Site>, NoMemory>
    requires tables { AreFlowTables tables.now }
    requires here { IsHere m.now }
    requires same { recs_in tables.now ≡ m.now.world.now.recs }
    requires types { tables.now.types.now ≡ m.now.world.now }
    requires home { method_home m.now.world.now.recs id ≡ Some at }
    requires method { setting_at m.now.world.now.recs at ≡ Some (setting_in m.now) }
    requires owner { owner ≡ owner_at m.now.world.now.recs at }
    ensures { IfOk result (λ found. found ≡ method_sites m.now.world.now.recs id at) }
{
    match Graph::of_method(alloc, m) {
        Err(GraphError::NoMemory) => Err(NoMemory),
        Err(GraphError::Bad) => {
            let found = signature_sites(alloc, tables, owner, at)?;
            Ok(found)
        }
        Ok(graph) => {
            let found = sites_by_graph(alloc, tables, id, at, m, owner, &graph)?;
            Ok(found)
        }
    }
}

/// The sites of a method by its row: of its signature, and where its values have a flow of its locals and its code.
pub(crate) fn method_sites(
    alloc: Global,
    tables: &FlowTables<'_>,
    id: MethodId,
    at: RowAt,
) -> Result<Seq<Site>, NoMemory>
    requires tables { AreFlowTables tables.now }
    requires home { method_home (recs_in tables.now) id ≡ Some at }
    ensures { IfOk result (λ found. found ≡ method_sites (recs_in tables.now) id at) }
{
    let marker = tables.annotated.marker;
    let owner = owner_at(marker, at)?;
    match method_at(marker.tables.world, at) {
        None => {
            let found = signature_sites(alloc, tables, owner, at)?;
            Ok(found)
        }
        Some(method) => {
            let found = sites_of_method(alloc, tables, id, at, &method, owner)?;
            Ok(found)
        }
    }
}
