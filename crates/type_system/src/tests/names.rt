//! Types by name, texts, arguments put in.

ghost use Rattle.rules.specs.link_rules.Linked.{IsWorld};

use super::build::*;
use crate::Types;
use attr_blobs::TypeName;
use il_base::world_model::{AsmRec, TypeExpr, World};
use il_base::{AsmId, NoMemory, Seq, TypeId};
use std::alloc::Global;
use std::test::Fail;

/// `class Plain {}` and `class Box<T> {}`. Types: 1 Plain, 2 Box.
fn fill_boxes(rec: &mut AsmRec, alloc: Global) -> Result<(), NoMemory> {
    begin(rec, alloc, b"App")?;
    class(rec, alloc, b"Plain", OBJECT, 0)?;
    class(rec, alloc, b"Box`1", OBJECT, 0)
}

/// The type that a name without an assembly's is of, for the first assembly.
fn id_of(alloc: Global, types: &Types<'_>, name: &[u8]) -> Result<Option<u32>, NoMemory> {
    let mut path = Seq::new(alloc);
    path.push(text(alloc, name)?)?;
    let name = TypeName { path, asm: None };
    match types.find_type(AsmId(0), &name) {
        None => Ok(None),
        Some(TypeId(id)) => Ok(Some(id)),
    }
}

/// The types that names are of.
fn ids(alloc: Global, world: &World, names: &[&[u8]]) -> Result<Vec<Option<u32>>, NoMemory>
    requires { IsWorld world.now }
{
    let types = Types::new(alloc, world)?;
    let mut found = Vec::new(alloc);
    for name in names {
        let id = id_of(alloc, &types, name)?;
        found.push(id)?;
    }
    Ok(found)
}

#[test]
fn finds_types(rt: HostRuntime) -> Result<(), Fail> {
    let alloc = rt.alloc();
    let world = built(alloc, fill_boxes)?;
    let names = [
        b"Plain".as_slice(),
        b"Box`1".as_slice(),
        b"System.Object".as_slice(),
        b"Nowhere".as_slice(),
    ];
    let found = ids(alloc, &world, names.as_slice())?;
    assert_eq!(rt;
        found.as_slice(),
        [Some(1), Some(2), Some(4), None].as_slice()
    );
    Ok(())
}

/// Whether the text of a type is this.
fn has_text(alloc: Global, world: &World, ty: TypeExpr, expected: &[u8]) -> Result<bool, NoMemory>
    requires { IsWorld world.now }
{
    let types = Types::new(alloc, world)?;
    let found = types.text(alloc, &ty)?;
    Ok(found.as_slice() == expected)
}

#[test]
fn texts_of_made_types(rt: HostRuntime) -> Result<(), Fail> {
    let alloc = rt.alloc();
    let world = built(alloc, fill_boxes)?;
    let ty = inst(alloc, 2, string())?;
    assert!(rt; has_text(alloc, &world, ty, b"Box`1[System.String]")?);
    let ty = array(alloc, def(1))?;
    assert!(rt; has_text(alloc, &world, ty, b"Plain[]")?);
    Ok(())
}

/// Box of the first parameter of its type, with an argument for it.
fn substituted(alloc: Global, types: &Types<'_>, arg: TypeExpr) -> Result<TypeExpr, NoMemory> {
    let ty = inst(alloc, 2, TypeExpr::Var(0))?;
    let mut targs = Seq::new(alloc);
    targs.push(arg)?;
    types.subst(alloc, &ty, &targs, &Seq::new(alloc))
}

#[test]
fn puts_arguments_in(rt: HostRuntime) -> Result<(), Fail> {
    let alloc = rt.alloc();
    let world = built(alloc, fill_boxes)?;
    let types = Types::new(alloc, &world)?;
    let made = substituted(alloc, &types, def(1))?;
    assert!(rt; made.is_same(&inst(alloc, 2, def(1))?));
    Ok(())
}
