//! The scopes of types of the core library.

ghost use Rattle.std.specs.Prelude.{◌≡◌, map, IfOk, OnOk};
ghost use Rattle.std.specs.HashMap.{get};
ghost use Rattle.std.specs.Option.{option_copied};
ghost use Rattle.rules.specs.merge_rules.Absent.{bare};
ghost use Rattle.rules.specs.merge_rules.Refs.{scope_of};
ghost use Rattle.resolver.specs.type_links.Index.{IsIndex};
ghost use Rattle.token_keys.specs.core_scopes.CoreRefs.{told};
ghost use Rattle.token_keys.specs.core_scopes.Firsts.{same_spot, spot_of, KeepsFirst, AreFirsts, AreScopes};

use crate::core_scopes::assemblies::{bare, system_runtime};
use crate::core_scopes::core_refs::{CoreRef, core_refs};
use il_base::world_model::{AsmRec, AssemblyRefRow};
use il_base::{NoMemory, TypeId};
use resolver::type_links::TypeIndex;
use rules::link_rules::RowAt;
use std::alloc::Global;
use std::collections::HashMap;
use type_tables::member_search::homes::type_home;

/// A row as a key.
#[derive(Clone, Copy, PartialEq, Eq, Hash)]
struct Spot {
    asm: u32,
    row: u32,
}

/// The key of a row.
fn spot_of(at: RowAt) -> Spot
    ensures { result ≡ spot_of at }
{
    Spot {
        asm: at.asm,
        row: at.row,
    }
}

/// The assemblies through which the inputs first name types, by the rows of these types.
#[derive(Drop)]
pub struct CoreScopes {
    firsts: HashMap<Spot, AssemblyRefRow>,
}

/// Puts the assembly of a reference under its type, where none is there.
fn keep_first(
    alloc: Global,
    firsts: &mut HashMap<Spot, AssemblyRefRow>,
    one: &CoreRef<'_>,
) -> Result<(), NoMemory>
    ensures { OnOk result (KeepsFirst firsts.old (spot_of one.now.typ) (bare one.now.by.now) firsts.new) }
{
    let spot = spot_of(one.typ);
    if !firsts.contains_key(&spot) {
        let row = bare(alloc, one.by)?;
        firsts.insert(spot, row)?;
    }
    Ok(())
}

/// The first assembly of each type.
fn firsts_of(alloc: Global, refs: &[CoreRef<'_>]) -> Result<HashMap<Spot, AssemblyRefRow>, NoMemory>
    ensures { IfOk result (AreFirsts (map told refs.now)) }
{
    let mut firsts = HashMap::new(alloc);
    for one in refs {
        keep_first(alloc, &mut firsts, one)?;
    }
    Ok(firsts)
}

impl CoreScopes {
    /// Those of these assemblies, the last of which is the core library.
    pub fn of(alloc: Global, index: &TypeIndex<'_>) -> Result<CoreScopes, NoMemory>
        requires { IsIndex index.now }
        ensures { IfOk result (AreScopes index.now.all.now) }
    {
        let refs = core_refs(alloc, index, index.all)?;
        let firsts = firsts_of(alloc, refs.as_slice())?;
        Ok(CoreScopes { firsts })
    }

    /// The assembly of the type in a row.
    fn scope_at(&self, at: RowAt) -> Option<&AssemblyRefRow>
        ensures { option_copied result ≡ get same_spot self.now.firsts (spot_of at) }
    {
        self.firsts.get(&spot_of(at))
    }

    /// The assembly through which the output names a type of the core library: the one through which the inputs first name it
    /// (II.22.38), without its hash.
    pub fn scope_of(
        &self,
        alloc: Global,
        recs: &[AsmRec],
        id: TypeId,
    ) -> Result<AssemblyRefRow, NoMemory>
        requires { AreScopes recs.now self.now }
        ensures { IfOk result (λ row. row ≡ scope_of recs.now id) }
    {
        let home = type_home(recs, id)?;
        let Some(at) = home else {
            let row = system_runtime(alloc)?;
            return Ok(row);
        };
        let Some(first) = self.scope_at(at) else {
            let row = system_runtime(alloc)?;
            return Ok(row);
        };
        let row = bare(alloc, first)?;
        Ok(row)
    }
}
