//! What a link of assemblies answers.

use super::build::*;
use super::generics::fill_parameter_base;
use il_base::world_model::{
    AsmRec, BadKind, ExportedTypeRow, Known, NestedClassRow, TypeSpecRow, World,
};
use il_base::{AsmId, Boxed, NoMemory, Seq, Sig};
use resolver::link;
use rules::link_rules::LinkError;
use std::alloc::Global;
use std::test::Fail;

/// An assembly of a name, without types of its own.
fn named(alloc: Global, name: &[u8]) -> Result<AsmRec, NoMemory> {
    let mut rec = no_rows(alloc);
    begin(&mut rec, alloc, name)?;
    Ok(rec)
}

/// Why assemblies don't link: the assembly, the demand and the row.
pub fn fault(alloc: Global, recs: Seq<AsmRec>) -> Result<Option<(u32, u8, u32)>, NoMemory> {
    match link(alloc, recs) {
        Ok(_) => Ok(None),
        Err(LinkError::Bad { file, why, token }) => Ok(Some((file, why, token))),
        Err(LinkError::NoMemory) => Err(NoMemory),
    }
}

/// An assembly that forwards the type `T` to another.
fn fill_forwarding(rec: &mut AsmRec, alloc: Global, own: &[u8], to: &[u8]) -> Result<(), NoMemory> {
    begin(rec, alloc, own)?;
    refer(rec, alloc, to)?;
    rec.exported_type.push(ExportedTypeRow {
        flags: 0x0020_0000,
        type_def_id: 0,
        name: text(alloc, b"T")?,
        namespace: Seq::new(alloc),
        implementation: 0x2300_0002,
    })
}

/// An assembly with a reference to the type `T` of `A`, its second TypeRef row.
fn fill_user(rec: &mut AsmRec, alloc: Global) -> Result<(), NoMemory> {
    begin(rec, alloc, b"App")?;
    refer(rec, alloc, b"A")?;
    mention(rec, alloc, 0x2300_0002, b"", b"T")
}

/// An assembly that forwards the type `T` to another, and has nothing else.
fn forwarding(alloc: Global, own: &[u8], to: &[u8]) -> Result<AsmRec, NoMemory> {
    let mut rec = no_rows(alloc);
    fill_forwarding(&mut rec, alloc, own, to)?;
    Ok(rec)
}

/// The same, with `int modopt(T)` as a TypeSpec row.
fn fill_modified(rec: &mut AsmRec, alloc: Global) -> Result<(), NoMemory> {
    fill_user(rec, alloc)?;
    let inner = Boxed::new(alloc, Sig::Prim(0x08))?;
    rec.type_spec.push(TypeSpecRow {
        signature: Known::Good(Sig::Mod {
            required: false,
            token: 0x0100_0002,
            inner,
        }),
    })
}

/// `App`, and `A` that forwards `T` to the core library, which has no such type.
fn push_modified(alloc: Global, recs: &mut Seq<AsmRec>) -> Result<(), NoMemory> {
    push_filled(recs, alloc, fill_modified)?;
    recs.push(forwarding(alloc, b"A", b"System.Runtime")?)
}

/// Whether a token of `App` names a type.
fn is_type_found(world: &World, token: u32) -> bool {
    match world.type_at(AsmId(0), token) {
        Some(Known::Good(_)) => true,
        Some(Known::Bad(_)) => false,
        None => false,
    }
}

/// A modifier finds the type; a reference to it as an operand or a base doesn't.
#[test]
fn names_that_only_modifiers_use(rt: HostRuntime) -> Result<(), Fail> {
    let alloc = rt.alloc();
    let mut recs = Seq::new(alloc);
    push_modified(alloc, &mut recs)?;
    let world = world(alloc, recs)?;
    assert!(rt; is_type_found(&world, 0x1b00_0001));
    assert!(rt; !is_type_found(&world, 0x0100_0002));
    Ok(())
}

/// Whether a method token of the first assembly names a method; None where it is bad otherwise than unresolved.
fn is_found(world: &World, token: u32) -> Option<bool> {
    match world.method_at(AsmId(0), token) {
        Some(Known::Good(_)) => Some(true),
        Some(Known::Bad(BadKind::Unresolved)) => Some(false),
        Some(Known::Bad(_)) => None,
        None => None,
    }
}

/// A reference to `M` of `C<B>`, which only `B` has.
fn fill_parameter_reference(rec: &mut AsmRec, alloc: Global) -> Result<(), NoMemory> {
    fill_parameter_base(rec, alloc)?;
    method_ref(rec, alloc, 0x1b00_0002, b"M")
}

/// A base that is a parameter is none.
#[test]
fn references_by_way_of_a_parameter(rt: HostRuntime) -> Result<(), Fail> {
    let alloc = rt.alloc();
    let world = built(alloc, fill_parameter_reference)?;
    assert_eq!(rt; is_found(&world, 0x0a00_0001), Some(false));
    Ok(())
}
