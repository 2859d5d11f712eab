ghost use Rattle.std.specs.Prelude.{◌≡◌, IfOk, position};
ghost use Rattle.rules.specs.link_rules.Types.{is_called, assembly_named};
ghost use Rattle.resolver.specs.type_links.Scopes.{assemblies_of};

use il_base::NoMemory;
use il_base::world_model::{AsmRec, is_core_name};
use std::alloc::Global;

/// Whether an assembly has this simple name.
fn is_called(rec: &AsmRec, name: &[u8]) -> bool
    ensures { result ≡ is_called name.now rec.now }
{
    match rec.assembly.get(0) {
        None => false,
        Some(row) => row.name.as_slice() == name,
    }
}

/// The first assembly of this name.
fn own_place(all: &[AsmRec], name: &[u8]) -> Option<usize>
    ensures { result ≡ position (is_called name.now) all.now }
{
    all.iter().position(|rec| is_called(rec, name))
}

/// The place of the first assembly of this name, and else of the core library, which is the last, under its reference names.
#[tactic(auto, unfolding(rules::specs::link_rules::Types::assembly_named))]
pub fn assembly_named(all: &[AsmRec], name: &[u8]) -> Option<usize>
    ensures { result ≡ assembly_named all.now name.now }
{
    match own_place(all, name) {
        Some(at) => Some(at),
        None => {
            if is_core_name(name) {
                Some(all.len().saturating_sub(1))
            } else {
                None
            }
        }
    }
}

/// The same as a number of 32 bits.
fn number_named(all: &[AsmRec], name: &[u8]) -> Result<Option<u32>, NoMemory>
    ensures { IfOk result (λ at. at ≡ assembly_named all.now name.now) }
{
    match assembly_named(all, name) {
        None => Ok(None),
        Some(at) => match u32::try_from(at) {
            Ok(at) => Ok(Some(at)),
            Err(_) => Err(NoMemory),
        },
    }
}

/// The assembly that each AssemblyRef row names, from 0; None for one that isn't there.
pub(crate) fn assemblies_of(
    alloc: Global,
    all: &[AsmRec],
    rec: &AsmRec,
) -> Result<Vec<Option<u32>>, NoMemory>
    ensures { IfOk result (λ v. v.items ≡ assemblies_of all.now rec.now) }
{
    let mut named = Vec::new(alloc);
    for row in rec.assembly_ref.as_slice() {
        let at = number_named(all, row.name.as_slice())?;
        named.push(at)?;
    }
    Ok(named)
}
