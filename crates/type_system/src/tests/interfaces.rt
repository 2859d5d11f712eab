//! Which method a virtual call runs, by the slots of interfaces.

ghost use Rattle.std.specs.Prelude.{IfOk};
ghost use Rattle.rules.specs.link_rules.Linked.{IsWorld};

use super::build::*;
use crate::Types;
use il_base::world_model::{AsmRec, TypeExpr, World};
use il_base::{MethodId, NoMemory, Seq};
use std::alloc::Global;
use std::test::Fail;

/// What a type answers a method of an interface instance with.
fn answer(
    alloc: Global,
    types: &Types<'_>,
    ty: &TypeExpr,
    owner: &TypeExpr,
    method: u32,
) -> Result<Option<u32>, NoMemory> {
    match types.dispatch(alloc, ty, owner, MethodId(method)) {
        Err(error) => Err(error),
        Ok(None) => Ok(None),
        Ok(Some(MethodId(id))) => Ok(Some(id)),
    }
}

/// What the type of an id answers the first method of the first interface with, which is type 1.
fn runs(alloc: Global, types: &Types<'_>, ty: u32) -> Result<Option<u32>, NoMemory> {
    answer(alloc, types, &def(ty), &def(1), 0)
}

/// What types, by their ids, answer the first method of the first interface with.
fn answers(alloc: Global, world: &World, of: &[u32]) -> Result<Vec<Option<u32>>, NoMemory>
    requires { IsWorld world.now }
{
    let types = Types::new(alloc, world)?;
    let mut found = Vec::new(alloc);
    for ty in of {
        let answer = runs(alloc, &types, *ty)?;
        found.push(answer)?;
    }
    Ok(found)
}

/// Type 1, method 0: `interface I { void M(); }`
fn fill_interface(rec: &mut AsmRec, alloc: Global) -> Result<(), NoMemory> {
    begin(rec, alloc, b"App")?;
    interface(rec, alloc, b"I", 1)?;
    method(rec, alloc, b"M", ABSTRACT)
}

/// Types 1 to 3, methods 0 I.M, 1 A.I.M, 2 A.M:
///
/// ```text
/// interface I    { void M(); }
/// class A : I    { void I.M(); public virtual void M(); }
/// class D : A, I {}
/// ```
fn fill_explicit(rec: &mut AsmRec, alloc: Global) -> Result<(), NoMemory> {
    fill_interface(rec, alloc)?;
    class(rec, alloc, b"A", OBJECT, 2)?;
    method(rec, alloc, b"I.M", EXPLICIT)?;
    method(rec, alloc, b"M", VIRTUAL)?;
    class(rec, alloc, b"D", 0x0200_0003, 0)?;
    override_by(rec, 0x0200_0003, 0x0600_0002, 0x0600_0001)?;
    implement(rec, 0x0200_0003, 0x0200_0002)?;
    implement(rec, 0x0200_0004, 0x0200_0002)
}

/// An explicit implementation comes before a method of the same name, also for a class that lists the interface again.
#[test]
fn explicit_implementations(rt: HostRuntime) -> Result<(), Fail> {
    let alloc = rt.alloc();
    let world = built(alloc, fill_explicit)?;
    let found = answers(alloc, &world, &[2, 3])?;
    assert_eq!(rt; found.as_slice(), [Some(1), Some(1)].as_slice());
    Ok(())
}

/// Types 1 to 3, methods 0 I.M, 1 B.M:
///
/// ```text
/// interface I    { void M(); }
/// class B        { public virtual void M(); }
/// class C : B, I {}
/// ```
fn fill_of_base(rec: &mut AsmRec, alloc: Global) -> Result<(), NoMemory> {
    fill_interface(rec, alloc)?;
    class(rec, alloc, b"B", OBJECT, 1)?;
    method(rec, alloc, b"M", VIRTUAL)?;
    class(rec, alloc, b"C", 0x0200_0003, 0)?;
    implement(rec, 0x0200_0004, 0x0200_0002)
}

/// A method of a base serves an interface that the base doesn't have.
#[test]
fn methods_of_bases(rt: HostRuntime) -> Result<(), Fail> {
    let alloc = rt.alloc();
    let world = built(alloc, fill_of_base)?;
    let found = answers(alloc, &world, &[3])?;
    assert_eq!(rt; found.as_slice(), [Some(1)].as_slice());
    Ok(())
}
