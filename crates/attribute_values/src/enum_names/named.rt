//! The names that find an enum from an assembly.

ghost use Rattle.std.specs.Prelude.{◌≡◌, ◌++◌, Some, None, IfOk, OnOk};
ghost use Rattle.rules.specs.mark_rules.Attributes.{is_found, sized};
ghost use Rattle.attribute_values.specs.enum_names.Names.{sized_under, named_under, names_under};

use attr_blobs::{EnumSize, TypeName};
use il_base::{AsmId, NoMemory, Seq, Text, TypeId};
use std::alloc::Global;
use type_names::TypeNames;

/// An enum of the world.
#[derive(Drop)]
pub struct EnumType {
    pub id: TypeId,
    /// The size of its underlying type in bytes.
    pub size: u8,
    pub path: Seq<Text>,
}

/// Whether a name finds a type from an assembly.
fn is_found(names: &TypeNames<'_>, from: u32, id: TypeId, n: &TypeName) -> bool
    ensures { result ≡ is_found names.now from id n.now }
{
    match names.find_type(AsmId(from), n) {
        Some(found) => found.0 == id.0,
        None => false,
    }
}

/// Puts the size of an enum under a name at the end, if the name finds it from an assembly.
#[tactic(auto, using(crate::proofs::lemmas::enum_names::Lists::none_more))]
fn add_sized(
    names: &TypeNames<'_>,
    from: u32,
    id: TypeId,
    size: u8,
    n: TypeName,
    enums: &mut Seq<EnumSize>,
) -> Result<(), NoMemory>
    ensures { OnOk result (enums.new ≡ enums.old ++ sized names.now from id size n) }
{
    let found = is_found(names, from, id, &n);
    if found {
        return enums.push(EnumSize { name: n, size });
    }
    Ok(())
}

/// A copy of a path.
fn copy_path(alloc: Global, path: &[Text]) -> Result<Seq<Text>, NoMemory>
    ensures { IfOk result (λ copy. copy ≡ path.now) }
{
    let mut copy = Seq::new(alloc);
    for name in path {
        let name = Seq::from_slice(alloc, name.as_slice())?;
        copy.push(name)?;
    }
    Ok(copy)
}

/// Puts the size of an enum at the end, if its path alone finds it from an assembly.
fn add_alone(
    alloc: Global,
    names: &TypeNames<'_>,
    from: u32,
    e: &EnumType,
    enums: &mut Seq<EnumSize>,
) -> Result<(), NoMemory>
    ensures { OnOk result (enums.new ≡ enums.old ++ sized_under names.now from e.now None) }
{
    let path = copy_path(alloc, e.path.as_slice())?;
    add_sized(
        names,
        from,
        e.id,
        e.size,
        TypeName { path, asm: None },
        enums,
    )
}

/// Puts the size of an enum at the end, if its path with the name of an assembly finds it from an assembly.
fn add_within(
    alloc: Global,
    names: &TypeNames<'_>,
    from: u32,
    e: &EnumType,
    name: &[u8],
    enums: &mut Seq<EnumSize>,
) -> Result<(), NoMemory>
    ensures { OnOk result (enums.new ≡ enums.old ++ sized_under names.now from e.now (Some name.now)) }
{
    let path = copy_path(alloc, e.path.as_slice())?;
    let name = Seq::from_slice(alloc, name)?;
    let asm = Some(name);
    add_sized(names, from, e.id, e.size, TypeName { path, asm }, enums)
}

/// Puts the size of an enum at the end under its path with each of these names of its assembly that finds it.
fn add_within_each(
    alloc: Global,
    names: &TypeNames<'_>,
    from: u32,
    e: &EnumType,
    own: &[Text],
    enums: &mut Seq<EnumSize>,
) -> Result<(), NoMemory>
    ensures { OnOk result (enums.new ≡ enums.old ++ named_under names.now from e.now own.now) }
{
    for name in own {
        add_within(alloc, names, from, e, name.as_slice(), enums)?;
    }
    Ok(())
}

/// Puts the size of an enum at the end under each name that finds it from an assembly; `own` are the names of its assembly.
#[tactic(auto, using(crate::proofs::lemmas::enum_names::Lists::two_put))]
pub(crate) fn add_named(
    alloc: Global,
    names: &TypeNames<'_>,
    from: u32,
    e: &EnumType,
    own: &[Text],
    enums: &mut Seq<EnumSize>,
) -> Result<(), NoMemory>
    ensures { OnOk result (enums.new ≡ enums.old ++ names_under names.now from e.now own.now) }
{
    add_alone(alloc, names, from, e, enums)?;
    add_within_each(alloc, names, from, e, own, enums)
}
