//! The keys of the types of an assembly, as numbers: namespace, name and encloser.

ghost use Rattle.std.specs.Prelude.{◌≡◌, IfOk};
ghost use Rattle.link_faults.specs.Keys.{code_of_type, type_codes};

use crate::codes::add_text;
use crate::nesting::{encloser, enclosers};
use il_base::world_model::{AsmRec, TypeDefRow};
use il_base::{NoMemory, Seq};
use std::alloc::Global;

/// The key of a type with this encloser, or without one.
fn code_of_type(alloc: Global, around: &[u32], row: &TypeDefRow) -> Result<Seq<u32>, NoMemory>
    ensures { IfOk result (λ code. code ≡ code_of_type around.now row.now) }
{
    let mut code = Seq::new(alloc);
    add_text(&mut code, row.namespace.as_slice())?;
    add_text(&mut code, row.name.as_slice())?;
    code.extend_from_slice(around)?;
    Ok(code)
}

/// The key of each type of an assembly.
pub(crate) fn type_codes(alloc: Global, rec: &AsmRec) -> Result<Vec<Option<Seq<u32>>>, NoMemory>
    ensures { IfOk result (λ codes. codes.items ≡ type_codes rec.now) }
{
    let graph = enclosers(alloc, rec)?;
    let mut codes = Vec::new(alloc);
    for (at, row) in rec.type_def.as_slice().iter().enumerate() {
        let around = encloser(rec, &graph, at)?;
        let code = code_of_type(alloc, around, row)?;
        codes.push(Some(code))?;
    }
    Ok(codes)
}
