//! Which method a virtual call runs, by the slots of classes.

ghost use Rattle.rules.specs.link_rules.Linked.{IsWorld};

use super::build::*;
use crate::Types;
use il_base::world_model::{AsmRec, World};
use il_base::{MethodId, NoMemory};
use std::alloc::Global;
use std::test::Fail;

/// What the type of an id answers a method of a class with.
fn runs(alloc: Global, types: &Types<'_>, ty: u32, method: u32) -> Result<Option<u32>, NoMemory> {
    let ty = def(ty);
    match types.dispatch(alloc, &ty, &ty, MethodId(method)) {
        Err(error) => Err(error),
        Ok(None) => Ok(None),
        Ok(Some(MethodId(id))) => Ok(Some(id)),
    }
}

/// What types answer methods of a class with. Each question is a type and a method, by their ids.
fn answers(
    alloc: Global,
    world: &World,
    questions: &[(u32, u32)],
) -> Result<Vec<Option<u32>>, NoMemory>
    requires { IsWorld world.now }
{
    let types = Types::new(alloc, world)?;
    let mut found = Vec::new(alloc);
    for (ty, method) in questions {
        let answer = runs(alloc, &types, *ty, *method)?;
        found.push(answer)?;
    }
    Ok(found)
}

/// Types 1 to 3, each with one method, 0 to 2:
///
/// ```text
/// class B     { public virtual void M(); }
/// class S : B { public new virtual void M(); }
/// class T : S { public override void M(); }
/// ```
fn fill_hidden(rec: &mut AsmRec, alloc: Global) -> Result<(), NoMemory> {
    begin(rec, alloc, b"App")?;
    class(rec, alloc, b"B", OBJECT, 1)?;
    method(rec, alloc, b"M", VIRTUAL)?;
    class(rec, alloc, b"S", 0x0200_0002, 1)?;
    method(rec, alloc, b"M", VIRTUAL)?;
    class(rec, alloc, b"T", 0x0200_0003, 1)?;
    method(rec, alloc, b"M", OVERRIDE)
}

/// An override takes the nearest slot, and a slot of the same name further up is another.
#[test]
fn hidden_slots(rt: HostRuntime) -> Result<(), Fail> {
    let alloc = rt.alloc();
    let world = built(alloc, fill_hidden)?;
    let found = answers(alloc, &world, &[(3, 0), (3, 1), (3, 2)])?;
    assert_eq!(rt; found.as_slice(), [Some(0), Some(2), Some(2)].as_slice());
    Ok(())
}

/// Types 1 to 3, each with one method, 0 to 2:
///
/// ```text
/// class B     { public virtual void M(); }
/// class D : B { public virtual void N(); .override B::M with D::N }
/// class E : D { public override void N(); }
/// ```
fn fill_renamed(rec: &mut AsmRec, alloc: Global) -> Result<(), NoMemory> {
    begin(rec, alloc, b"App")?;
    class(rec, alloc, b"B", OBJECT, 1)?;
    method(rec, alloc, b"M", VIRTUAL)?;
    class(rec, alloc, b"D", 0x0200_0002, 1)?;
    method(rec, alloc, b"N", VIRTUAL)?;
    override_by(rec, 0x0200_0003, 0x0600_0002, 0x0600_0001)?;
    class(rec, alloc, b"E", 0x0200_0003, 1)?;
    method(rec, alloc, b"N", OVERRIDE)
}

/// A MethodImpl row gives a slot a body by another name. An override of that body takes the body's own slot alone.
#[test]
fn slots_by_method_impl(rt: HostRuntime) -> Result<(), Fail> {
    let alloc = rt.alloc();
    let world = built(alloc, fill_renamed)?;
    let found = answers(alloc, &world, &[(2, 0), (3, 0), (3, 1)])?;
    assert_eq!(rt; found.as_slice(), [Some(1), Some(1), Some(2)].as_slice());
    Ok(())
}
