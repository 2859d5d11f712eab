//! Members by name.

ghost use Rattle.rules.specs.link_rules.Linked.{IsWorld};

use super::build::*;
use crate::Types;
use il_base::world_model::{AsmRec, FieldRow, Known, World};
use il_base::{FieldId, Item, MethodId, NoMemory, Seq, Sig, TypeId};
use std::alloc::Global;
use std::test::Fail;

/// `public static int`
fn static_field(rec: &mut AsmRec, alloc: Global, name: &[u8]) -> Result<(), NoMemory> {
    rec.field.push(FieldRow {
        flags: 0x16,
        name: text(alloc, name)?,
        signature: Known::Good(Sig::Prim(0x08)),
    })
}

/// Types 1 and 2, field 0 B.F, methods 0 B.M, 1 S.M, 2 S.M(int):
///
/// ```text
/// class B     { public static int F; public virtual void M(); }
/// class S : B { public override void M(); public virtual void M(int); }
/// ```
fn fill_members(rec: &mut AsmRec, alloc: Global) -> Result<(), NoMemory> {
    begin(rec, alloc, b"App")?;
    class_with_field(rec, alloc, b"B", OBJECT, 1)?;
    static_field(rec, alloc, b"F")?;
    method(rec, alloc, b"M", VIRTUAL)?;
    class(rec, alloc, b"S", 0x0200_0002, 2)?;
    method(rec, alloc, b"M", OVERRIDE)?;
    method_of(rec, alloc, b"M", VIRTUAL, Sig::Prim(0x08))
}

fn named(alloc: Global, world: &World, ty: u32, name: &[u8]) -> Result<Seq<Item>, NoMemory>
    requires { IsWorld world.now }
{
    let types = Types::new(alloc, world)?;
    types.members_named(alloc, TypeId(ty), name)
}

/// A member that is overridden isn't found.
#[test]
fn methods_by_name(rt: HostRuntime) -> Result<(), Fail> {
    let alloc = rt.alloc();
    let world = built(alloc, fill_members)?;
    let found = named(alloc, &world, 2, b"M")?;
    let wanted = [Item::Method(MethodId(1)), Item::Method(MethodId(2))];
    assert_eq!(rt; found.as_slice(), wanted.as_slice());
    Ok(())
}
