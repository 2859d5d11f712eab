//! Which types a type can stand for.

ghost use Rattle.rules.specs.link_rules.Linked.{IsWorld};

use super::build::*;
use crate::Types;
use il_base::world_model::{AsmRec, Known, TypeExpr, TypeSpecRow, World};
use il_base::{NoMemory, Sig};
use std::alloc::Global;
use std::test::Fail;

/// `object`
fn object() -> TypeExpr {
    TypeExpr::Prim(0x1c)
}

fn is_below(alloc: Global, world: &World, a: TypeExpr, b: TypeExpr) -> Result<bool, NoMemory>
    requires { IsWorld world.now }
{
    let types = Types::new(alloc, world)?;
    types.is_subtype(alloc, &a, &b)
}

/// Whether a vector of the one can stand for a vector of the other.
fn is_array_below(alloc: Global, world: &World, a: TypeExpr, b: TypeExpr) -> Result<bool, NoMemory>
    requires { IsWorld world.now }
{
    let a = array(alloc, a)?;
    let b = array(alloc, b)?;
    let types = Types::new(alloc, world)?;
    types.is_subtype(alloc, &a, &b)
}

/// Types 1 to 5, of which V has no base, as only System.Object should have none:
///
/// ```text
/// interface I {}
/// interface J : I {}
/// class T : J {}
/// class U {}
/// class V {}
/// ```
fn fill_chain(rec: &mut AsmRec, alloc: Global) -> Result<(), NoMemory> {
    begin(rec, alloc, b"App")?;
    interface(rec, alloc, b"I", 0)?;
    interface(rec, alloc, b"J", 0)?;
    class(rec, alloc, b"T", OBJECT, 0)?;
    class(rec, alloc, b"U", OBJECT, 0)?;
    class(rec, alloc, b"V", 0, 0)?;
    implement(rec, 0x0200_0003, 0x0200_0002)?;
    implement(rec, 0x0200_0004, 0x0200_0003)
}

#[test]
fn interfaces_and_bases(rt: HostRuntime) -> Result<(), Fail> {
    let alloc = rt.alloc();
    let world = built(alloc, fill_chain)?;
    assert!(rt; is_below(alloc, &world, def(3), def(1))?);
    assert!(rt; is_below(alloc, &world, def(3), def(2))?);
    assert!(rt; is_below(alloc, &world, def(3), object())?);
    assert!(rt; is_below(alloc, &world, def(3), def(3))?);
    assert!(rt; !is_below(alloc, &world, def(1), def(3))?);
    assert!(rt; !is_below(alloc, &world, def(3), def(4))?);
    assert!(rt; is_below(alloc, &world, def(1), object())?);
    assert!(rt; is_below(alloc, &world, def(5), object())?);
    Ok(())
}

/// Vectors of references stand for one another as their elements do, those of other types don't. System.Array is row 22 of
/// the core library, after the six types of the assembly.
#[test]
fn arrays(rt: HostRuntime) -> Result<(), Fail> {
    let alloc = rt.alloc();
    let world = built(alloc, fill_chain)?;
    assert!(rt; is_array_below(alloc, &world, def(3), def(1))?);
    assert!(rt; is_below(alloc, &world, array(alloc, def(3))?, def(27))?);
    assert!(rt; is_below(alloc, &world, array(alloc, def(3))?, object())?);
    assert!(rt; is_array_below(alloc, &world, string(), object())?);
    assert!(rt; !is_array_below(alloc, &world, int32(), object())?);
    Ok(())
}
