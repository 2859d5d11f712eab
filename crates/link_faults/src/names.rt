//! Duplicate names of assemblies.

ghost use Rattle.std.specs.Prelude.{◌≡◌, ◌||◌, Some, IfOk};
ghost use Rattle.std.specs.HashSet.{contains_by};
ghost use Rattle.il_base.specs.declared.reason.TheConstants.{DUPLICATE_ASSEMBLY};
ghost use Rattle.il_base.specs.world_model.Core.{same_name, is_core_name};
ghost use Rattle.rules.specs.declared.link_rules.link_error.LinkError.TheVariants as fault;
ghost use Rattle.rules.specs.link_rules.Faults.{own_name, duplicate_assembly};

use il_base::world_model::{AsmRec, is_core_name};
use il_base::{NoMemory, reason};
use rules::link_rules::LinkError;
use std::alloc::Global;
use std::collections::HashSet;

/// The name in the row of Assembly (II.22.2), empty where there is none.
fn own_name(rec: &AsmRec) -> &[u8]
    ensures { result.now ≡ own_name rec.now }
{
    match rec.assembly.as_slice() {
        [] => &[],
        [row, ..] => row.name.as_slice(),
    }
}

/// The fault that the name of an assembly is taken.
fn name_taken(file: usize) -> Result<Option<LinkError>, NoMemory>
    ensures { IfOk result (λ found. found ≡ Some (fault.Bad file DUPLICATE_ASSEMBLY 0)) }
{
    let Ok(file) = u32::try_from(file) else {
        return Err(NoMemory);
    };
    Ok(Some(LinkError::Bad {
        file,
        why: reason::DUPLICATE_ASSEMBLY,
        token: 0,
    }))
}

/// Whether a name is one of the core library's, or was met before.
fn is_taken(names: &HashSet<&[u8]>, name: &[u8]) -> bool
    ensures { result ≡ (is_core_name name.now || contains_by (λ k. same_name name.now k.now) names.now) }
{
    is_core_name(name) || names.contains(name)
}

/// The first assembly whose name is one of the core library's, or that of an earlier assembly.
#[tactic(auto, unfolding(rules::specs::link_rules::Faults::duplicate_assembly))]
pub fn duplicate_assembly(alloc: Global, recs: &[AsmRec]) -> Result<Option<LinkError>, NoMemory>
    ensures { IfOk result (λ found. found ≡ duplicate_assembly recs.now) }
{
    let mut names: HashSet<&[u8]> = HashSet::new(alloc);
    for (file, rec) in recs.iter().enumerate() {
        let name = own_name(rec);
        if is_taken(&names, name) {
            return name_taken(file);
        }
        names.insert(name)?;
    }
    Ok(None)
}
