ghost use Rattle.std.specs.Prelude.{◌≡◌, IfOk};
ghost use Rattle.std.specs.Option.{option_map};
ghost use Rattle.rules.specs.link_rules.Members.{type_count, with_bases, search};
ghost use Rattle.type_tables.specs.member_search.Linked.{IsLinked};
ghost use Rattle.type_tables.specs.member_search.Wanted.{look_for};
ghost use Rattle.type_tables.specs.member_search.Found.{told, find_member};

use crate::member_search::bases::{args_of, base_of};
use crate::member_search::counted::{Counted, rows_before};
use crate::member_search::linked::Linked;
use crate::member_search::members::{Wanted, look_for};
use crate::member_search::own_types::open_parent;
use il_base::NoMemory;
use il_base::world_model::{AsmRec, TypeExpr};
use rules::link_rules::RowAt;
use std::alloc::Global;

/// A member, and the type in which it was found.
#[derive(Drop)]
pub struct Found {
    pub at: RowAt,
    pub owner: TypeExpr,
}

#[tactic(auto, unfolding(rules::specs::link_rules::Members::type_count))]
fn type_count(all: &[AsmRec]) -> Result<u32, NoMemory>
    ensures { IfOk result (λ count. count ≡ type_count all.now) }
{
    rows_before(all, Counted::Types, all.len())
}

/// The first such member in a type and its bases, the nearest first. Each base is made when none before it has the
/// member.
fn search(
    alloc: Global,
    linked: &Linked<'_>,
    name: &[u8],
    wanted: &Wanted,
    start: TypeExpr,
) -> Result<Option<Found>, NoMemory>
    requires { IsLinked linked.now }
    ensures { IfOk result (λ found. option_map told found ≡ search (look_for linked.now.all.now name.now wanted.now) (with_bases linked.now.all.now start)) }
{
    let count = type_count(linked.all)?;
    let mut ty = start;
    for _ in 0..count {
        match look_for(alloc, linked, name, wanted, &ty) {
            Ok(Some(at)) => return Ok(Some(Found { at, owner: ty })),
            Ok(None) => {}
            Err(error) => return Err(error),
        }
        match base_of(alloc, linked, &ty) {
            Ok(Some(base)) => ty = base,
            Ok(None) => return Ok(None),
            Err(error) => return Err(error),
        }
    }
    Ok(None)
}

/// The member with this name and signature that a reference with this parent names, and the type that has it, with the
/// parent's arguments.
pub fn find_member(
    alloc: Global,
    linked: &Linked<'_>,
    parent: &TypeExpr,
    name: &[u8],
    wanted: &Wanted,
) -> Result<Option<Found>, NoMemory>
    requires { IsLinked linked.now }
    ensures { IfOk result (λ found. option_map told found ≡ find_member linked.now.all.now parent.now name.now wanted.now) }
{
    let start = open_parent(alloc, linked.all, parent)?;
    match search(alloc, linked, name, wanted, start) {
        Ok(Some(Found { at, owner })) => {
            let owner = owner.subst(alloc, args_of(parent), &[])?;
            Ok(Some(Found { at, owner }))
        }
        Ok(None) => Ok(None),
        Err(error) => Err(error),
    }
}
