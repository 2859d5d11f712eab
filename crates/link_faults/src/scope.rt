//! The assemblies of a world, with the links of their type tokens.

ghost use Rattle.std.specs.Prelude.{◌≡◌, IfOk};
ghost use Rattle.rules.specs.link_rules.Members.{type_count};

use il_base::NoMemory;
use il_base::world_model::{AsmRec, TypeLink};

/// The assemblies and the links of all their type tokens.
#[derive(Clone, Copy)]
pub(crate) struct Scope<'a> {
    pub(crate) all: &'a [AsmRec],
    pub(crate) links: &'a [TypeLink],
    /// How many types the assemblies have.
    pub(crate) types: usize,
    ghost all_counted: { types ≡ type_count all.now },
}

/// How many types the assemblies have.
fn type_count(all: &[AsmRec]) -> Result<usize, NoMemory>
    ensures { IfOk result (λ count. count ≡ type_count all.now) }
{
    let mut count = 0usize;
    for rec in all {
        let Some(more) = count.checked_add(rec.type_def.len()) else {
            return Err(NoMemory);
        };
        count = more;
    }
    Ok(count)
}

impl<'a> Scope<'a> {
    pub(crate) fn of(all: &'a [AsmRec], links: &'a [TypeLink]) -> Result<Scope<'a>, NoMemory>
        ensures all { IfOk result (λ scope. scope.all.now ≡ all.now) }
        ensures links { IfOk result (λ scope. scope.links.now ≡ links.now) }
    {
        let types = type_count(all)?;
        Ok(Scope { all, links, types })
    }
}
