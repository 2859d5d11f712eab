//! Linking.

ghost use Rattle.std.specs.Prelude.{◌≡◌, IfOk};
ghost use Rattle.rules.specs.link_rules.Linked.{Links, world_in};
ghost use Rattle.rules.specs.link_rules.Laws.{AreTypeLinks};

use crate::assemblies::assemblies;
use crate::homes::homes;
use crate::member_links::{field_links, method_links};
use crate::type_links::type_links;
use il_base::world_model::{AsmRec, TypeLink, World};
use il_base::{NoMemory, Seq};
use link_faults::link_fault;
use rules::link_rules::LinkError;
use std::alloc::Global;

/// The world of these assemblies, with the core library, by the links of their type tokens.
#[tactic(auto, unfolding(rules::specs::link_rules::Linked::world_in))]
fn world_with(alloc: Global, all: Seq<AsmRec>, types: Vec<TypeLink>) -> Result<World, NoMemory>
    requires { AreTypeLinks all types.items }
    ensures { IfOk result (λ w. w ≡ world_in all) }
{
    let methods = method_links(alloc, all.as_slice(), types.as_slice())?;
    let fields = field_links(alloc, all.as_slice(), types.as_slice())?;
    let homes = homes(alloc, all.as_slice())?;
    Ok(World {
        recs: all,
        homes,
        types: Seq::from_vec(types),
        methods: Seq::from_vec(methods),
        fields: Seq::from_vec(fields),
    })
}

/// The world that these assemblies make with the core library. The first of them is the primary.
///
/// `Bad` comes exactly where a demand of linking fails, and names the first. The demands are, in order: no duplicate name of an
/// assembly, no type on a cycle of bases, of interfaces or of value types in fields, no encloser on a cycle, no duplicate member.
/// `NoMemory` alone is free; it comes too where a world has more rows of a kind than 4294967295. After a refusal the records are
/// gone.
pub fn link(alloc: Global, recs: Seq<AsmRec>) -> Result<World, LinkError>
    ensures { Links recs result }
{
    let inputs = recs.len();
    let all = match assemblies(alloc, recs) {
        Err(NoMemory) => return Err(LinkError::NoMemory),
        Ok(all) => all,
    };
    let types = match type_links(alloc, all.as_slice()) {
        Err(NoMemory) => return Err(LinkError::NoMemory),
        Ok(types) => types,
    };
    match link_fault(alloc, all.as_slice(), inputs, types.as_slice()) {
        Err(fault) => return Err(fault),
        Ok(()) => {}
    }
    match world_with(alloc, all, types) {
        Err(NoMemory) => Err(LinkError::NoMemory),
        Ok(world) => Ok(world),
    }
}
