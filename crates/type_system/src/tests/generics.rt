//! Which method a virtual call runs, by the slots of generic interfaces.

ghost use Rattle.rules.specs.link_rules.Linked.{IsWorld};

use super::build::*;
use crate::Types;
use il_base::world_model::{AsmRec, Known, TypeExpr, TypeSpecRow, World};
use il_base::{MethodId, NoMemory, Seq, Sig, TypeId};
use std::alloc::Global;
use std::test::Fail;

/// What a type answers the first method of the first interface, which is type 1, at this argument with.
fn runs(alloc: Global, world: &World, ty: TypeExpr, arg: TypeExpr) -> Result<Option<u32>, NoMemory>
    requires { IsWorld world.now }
{
    let types = Types::new(alloc, world)?;
    let owner = inst(alloc, 1, arg)?;
    match types.dispatch(alloc, &ty, &owner, MethodId(0)) {
        Err(error) => Err(error),
        Ok(None) => Ok(None),
        Ok(Some(MethodId(id))) => Ok(Some(id)),
    }
}

/// Type 1, method 0: `interface I<T> { void M(T); }`
fn fill_interface(rec: &mut AsmRec, alloc: Global) -> Result<(), NoMemory> {
    begin(rec, alloc, b"App")?;
    interface(rec, alloc, b"I`1", 1)?;
    method_of(rec, alloc, b"M", ABSTRACT, Sig::Var(0))?;
    generic(rec, alloc, 0x0200_0002, 0)
}

/// Types 1 and 2, methods 0 I.M, 1 A.M(int), 2 A.M(string):
///
/// ```text
/// interface I<T>           { void M(T); }
/// class A : I<int>, I<string> { public virtual void M(int); public virtual void M(string); }
/// ```
fn fill_two_rows(rec: &mut AsmRec, alloc: Global) -> Result<(), NoMemory> {
    fill_interface(rec, alloc)?;
    class(rec, alloc, b"A", OBJECT, 2)?;
    method_of(rec, alloc, b"M", VIRTUAL, Sig::Prim(0x08))?;
    method_of(rec, alloc, b"M", VIRTUAL, Sig::Prim(0x0e))?;
    instance_of(rec, alloc, 0x0200_0002, Sig::Prim(0x08))?;
    instance_of(rec, alloc, 0x0200_0002, Sig::Prim(0x0e))?;
    implement(rec, 0x0200_0003, 0x1b00_0001)?;
    implement(rec, 0x0200_0003, 0x1b00_0002)
}

/// Each instance of an interface has the method of its own argument.
#[test]
fn two_instances_of_an_interface(rt: HostRuntime) -> Result<(), Fail> {
    let alloc = rt.alloc();
    let world = built(alloc, fill_two_rows)?;
    assert_eq!(rt; runs(alloc, &world, def(2), int32())?, Some(1));
    assert_eq!(rt; runs(alloc, &world, def(2), string())?, Some(2));
    Ok(())
}

/// Types 1 and 2, method 0, and the TypeSpec rows `T` and `C<B>`:
///
/// ```text
/// class B        { public virtual void M(); }
/// class C<T> : T {}
/// ```
pub fn fill_parameter_base(rec: &mut AsmRec, alloc: Global) -> Result<(), NoMemory> {
    begin(rec, alloc, b"App")?;
    class(rec, alloc, b"B", OBJECT, 1)?;
    method(rec, alloc, b"M", VIRTUAL)?;
    class(rec, alloc, b"C`1", 0x1b00_0001, 0)?;
    generic(rec, alloc, 0x0200_0003, 0)?;
    rec.type_spec.push(TypeSpecRow {
        signature: Known::Good(Sig::Var(0)),
    })?;
    let b = Sig::Named {
        value: false,
        token: 0x0200_0002,
    };
    instance_of(rec, alloc, 0x0200_0003, b)
}

/// A virtual call doesn't go by way of a base that is a parameter.
#[test]
fn bases_that_are_parameters(rt: HostRuntime) -> Result<(), Fail> {
    let alloc = rt.alloc();
    let world = built(alloc, fill_parameter_base)?;
    let ty = inst(alloc, 2, def(1))?;
    assert_eq!(rt; runs(alloc, &world, ty, int32())?, None);
    assert_eq!(rt; runs(alloc, &world, def(1), int32())?, Some(0));
    Ok(())
}
