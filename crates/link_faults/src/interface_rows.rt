//! The graph of interfaces: edges from each type to the interfaces that its InterfaceImpl rows name (II.22.23).

ghost use Rattle.std.specs.Prelude.{◌≡◌, [], ◌∷◌, ◌++◌, slice_set, IfOk, OnOk};
ghost use Rattle.rules.specs.link_rules.Faults.{numbered};
ghost use Rattle.link_faults.specs.Graphs.{next_in};
ghost use Rattle.link_faults.specs.Supertypes.{interface_flag, interface_flags, interface_at, place_of, led_on, nothing_of, interfaces_of, all_interfaces};

use crate::bases::is_interface_row;
use crate::held::has_flag;
use crate::scope::Scope;
use il_base::world_model::{AsmRec, FIRST_TYPE_DEF, InterfaceImplRow};
use il_base::{AsmId, NoMemory, Seq, TypeId};
use std::alloc::Global;

/// Adds a flag for each type of an assembly: whether it is an interface.
fn add_flags(rec: &AsmRec, flags: &mut Vec<bool>) -> Result<(), NoMemory>
    ensures { OnOk result (flags.new.items ≡ flags.old.items ++ numbered interface_flag 0 rec.now.type_def) }
{
    for row in rec.type_def.as_slice() {
        flags.push(is_interface_row(row))?;
    }
    Ok(())
}

/// A flag for each type, in the order of ids: whether it is an interface.
pub(crate) fn interface_flags(alloc: Global, scope: &Scope<'_>) -> Result<Vec<bool>, NoMemory>
    ensures { IfOk result (λ flags. flags.items ≡ interface_flags scope.now.all.now) }
{
    let mut flags = Vec::new(alloc);
    for rec in scope.all {
        add_flags(rec, &mut flags)?;
    }
    Ok(flags)
}

/// The id of the interface that a token of an assembly names, where it names one.
fn interface_at(
    scope: &Scope<'_>,
    flags: &[bool],
    asm: AsmId,
    token: u32,
) -> Result<Option<u32>, NoMemory>
    ensures { IfOk result (λ id. id ≡ interface_at scope.now.all.now scope.now.links.now flags.now asm.0 token) }
{
    match scope.target_at(asm, token)? {
        None => Ok(None),
        Some(id) => {
            if has_flag(flags, TypeId(id)) {
                Ok(Some(id))
            } else {
                Ok(None)
            }
        }
    }
}

/// Adds an edge from a node, if there is such a node.
fn lead_on(graph: &mut Vec<Seq<u32>>, node: u32, to: u32) -> Result<(), NoMemory>
    ensures { OnOk result (graph.new.items ≡ slice_set graph.old.items node (next_in graph.old.items node ++ to ∷ [])) }
{
    if let Some(led) = graph.get_mut(node as usize) {
        led.push(to)?;
    }
    Ok(())
}

/// The place of the row that a TypeDef token names; None for a token below that of the first row.
fn place_of(token: u32) -> Option<u32>
    ensures { result ≡ place_of token }
{
    token.checked_sub(FIRST_TYPE_DEF)
}

/// Adds the edge of an InterfaceImpl row, from its type to its interface.
fn lead_to_interface(
    scope: &Scope<'_>,
    flags: &[bool],
    asm: AsmId,
    row: &InterfaceImplRow,
    graph: &mut Vec<Seq<u32>>,
) -> Result<(), NoMemory>
    ensures { OnOk result (graph.new.items ≡ led_on graph.old.items (place_of row.now.class) (interface_at scope.now.all.now scope.now.links.now flags.now asm.0 row.now.interface)) }
{
    let Some(class) = place_of(row.class) else {
        return Ok(());
    };
    match interface_at(scope, flags, asm, row.interface)? {
        None => Ok(()),
        Some(interface) => lead_on(graph, class, interface),
    }
}

/// A node without edges for each type of an assembly.
fn nothing_of(alloc: Global, rec: &AsmRec) -> Result<Vec<Seq<u32>>, NoMemory>
    ensures { IfOk result (λ graph. graph.items ≡ numbered nothing_of 0 rec.now.type_def) }
{
    let mut graph = Vec::new(alloc);
    for _row in rec.type_def.as_slice() {
        graph.push(Seq::new(alloc))?;
    }
    Ok(graph)
}

/// The edges from the types of an assembly to their interfaces, in the order of rows.
fn interfaces_of(
    alloc: Global,
    scope: &Scope<'_>,
    flags: &[bool],
    asm: AsmId,
    rec: &AsmRec,
) -> Result<Vec<Seq<u32>>, NoMemory>
    ensures { IfOk result (λ graph. graph.items ≡ numbered (interfaces_of scope.now.all.now scope.now.links.now flags.now asm.0 rec.now.interface_impl) 0 rec.now.type_def) }
{
    let mut graph = nothing_of(alloc, rec)?;
    for row in rec.interface_impl.as_slice() {
        lead_to_interface(scope, flags, asm, row, &mut graph)?;
    }
    Ok(graph)
}

/// The graph of interfaces, with the types in the order of ids; `flags` says which types are interfaces.
pub(crate) fn all_interfaces(
    alloc: Global,
    scope: &Scope<'_>,
    flags: &[bool],
) -> Result<Vec<Seq<u32>>, NoMemory>
    ensures { IfOk result (λ graph. graph.items ≡ all_interfaces scope.now.all.now scope.now.links.now flags.now) }
{
    let mut graph = Vec::new(alloc);
    for (at, rec) in scope.all.iter().enumerate() {
        let Ok(asm) = u32::try_from(at) else {
            return Err(NoMemory);
        };
        let mut own = interfaces_of(alloc, scope, flags, AsmId(asm), rec)?;
        graph.append(&mut own)?;
    }
    Ok(graph)
}
