//! The graph of bases: an edge from each type to its base.

ghost use Rattle.std.specs.Prelude.{◌≡◌, IfOk};
ghost use Rattle.rules.specs.link_rules.Members.{is_interface_row};
ghost use Rattle.rules.specs.link_rules.Faults.{numbered};
ghost use Rattle.link_faults.specs.Supertypes.{base_target, bases_of, all_bases};

use crate::graph::list_of;
use crate::scope::Scope;
use il_base::type_flags::INTERFACE;
use il_base::world_model::{AsmRec, TypeDefRow};
use il_base::{AsmId, NoMemory, Seq, has_type_flag};
use std::alloc::Global;

/// Whether a row is an interface's (II.23.1.15).
pub(crate) fn is_interface_row(row: &TypeDefRow) -> bool
    ensures { result ≡ is_interface_row row.now }
{
    has_type_flag(row.flags, INTERFACE)
}

/// The id of the definition of a class's base, where it has one. An interface has none.
pub(crate) fn base_target(
    scope: &Scope<'_>,
    asm: AsmId,
    row: &TypeDefRow,
) -> Result<Option<u32>, NoMemory>
    ensures { IfOk result (λ id. id ≡ base_target scope.now.all.now scope.now.links.now asm.0 row.now) }
{
    if row.extends == 0 || is_interface_row(row) {
        return Ok(None);
    }
    scope.named_target_at(asm, row.extends)
}

/// The edges from the types of an assembly to their bases.
fn bases_of(
    alloc: Global,
    scope: &Scope<'_>,
    asm: AsmId,
    rec: &AsmRec,
) -> Result<Vec<Seq<u32>>, NoMemory>
    ensures { IfOk result (λ graph. graph.items ≡ numbered (bases_of scope.now.all.now scope.now.links.now asm.0) 0 rec.now.type_def) }
{
    let mut graph = Vec::new(alloc);
    for row in rec.type_def.as_slice() {
        let base = base_target(scope, asm, row)?;
        let led = list_of(alloc, base)?;
        graph.push(led)?;
    }
    Ok(graph)
}

/// The graph of bases, with the types in the order of ids.
pub(crate) fn all_bases(alloc: Global, scope: &Scope<'_>) -> Result<Vec<Seq<u32>>, NoMemory>
    ensures { IfOk result (λ graph. graph.items ≡ all_bases scope.now.all.now scope.now.links.now) }
{
    let mut graph = Vec::new(alloc);
    for (at, rec) in scope.all.iter().enumerate() {
        let Ok(asm) = u32::try_from(at) else {
            return Err(NoMemory);
        };
        let mut own = bases_of(alloc, scope, AsmId(asm), rec)?;
        graph.append(&mut own)?;
    }
    Ok(graph)
}
