//! What a type has for a slot of an interface instance (II.12.2).

ghost use Rattle.std.specs.Prelude.{◌≡◌, [], IfOk, find, map};
ghost use Rattle.std.specs.List.{flat_map};
ghost use Rattle.std.specs.Option.{option_map};
ghost use Rattle.il_base.specs.world_model.Exprs.{subst};
ghost use Rattle.rules.specs.link_rules.Signatures.{subst_method};
ghost use Rattle.rules.specs.link_rules.Members.{with_bases};
ghost use Rattle.rules.specs.type_rules.Slots.{nearest};
ghost use Rattle.rules.specs.type_rules.Dispatch.{implied, is_closed_to, chosen, choice_in, good_signature, from_choice, interface_method, interface_dispatch};
ghost use Rattle.type_tables.specs.Tables.{IsTables};
ghost use Rattle.virtual_calls.specs.Slots.{AreSlots};
ghost use Rattle.virtual_calls.specs.Interfaces.{told, interface_look, public_method};

use crate::class_slots::class_dispatch;
use crate::impls::{Declares, impl_in};
use crate::nearest::{base_of, match_in, method_at, type_count};
use crate::slots::{Slots, slot_of_method};
use il_base::world_model::{Known, MethodDefRow, TypeExpr};
use il_base::{NoMemory, Seq};
use rules::link_rules::{MethodType, RowAt};
use std::alloc::Global;
use type_tables::member_search::bases::args_of;
use type_tables::member_search::members::{Among, Wanted};
use type_tables::member_search::own_types::open_parent;
use type_tables::methods::method_type_at;
use type_tables::subtypes::interfaces::interfaces_of;
use type_tables::subtypes::rounds::implied;
use type_tables::tables::Tables;

/// A type, and the interface instance that it chooses, the type's own parameters left open.
#[derive(Drop)]
pub struct Choice {
    /// The type that chooses.
    pub of: TypeExpr,
    /// The interface instance.
    pub instance: TypeExpr,
}

/// The first of these types that is the wanted one once these arguments are put in.
fn first_closed(
    alloc: Global,
    args: &[TypeExpr],
    wanted: &TypeExpr,
    types: &[TypeExpr],
) -> Result<Option<TypeExpr>, NoMemory>
    ensures { IfOk result (λ found. found ≡ find (is_closed_to args.now wanted.now) types.now) }
{
    for e in types {
        let closed = e.subst(alloc, args, &[])?;
        if closed.is_same(wanted) {
            let found = e.copy(alloc)?;
            return Ok(Some(found));
        }
    }
    Ok(None)
}

/// The first such type among all that these interfaces imply, one interface after the other.
fn first_implied(
    alloc: Global,
    tables: &Tables<'_>,
    args: &[TypeExpr],
    wanted: &TypeExpr,
    interfaces: &[TypeExpr],
) -> Result<Option<TypeExpr>, NoMemory>
    requires { IsTables tables.now }
    ensures { IfOk result (λ found. found ≡ find (is_closed_to args.now wanted.now) (flat_map (implied tables.now.world.now.recs) interfaces.now)) }
{
    for e in interfaces {
        let types = implied(alloc, tables, e)?;
        match first_closed(alloc, args, wanted, types.as_slice()) {
            Ok(Some(found)) => return Ok(Some(found)),
            Ok(None) => {}
            Err(error) => return Err(error),
        }
    }
    Ok(None)
}

/// The instance that the first row of a type for an interface instance implies, the type's own parameters left open.
#[tactic(auto, unfolding(rules::specs::type_rules::Dispatch::chosen))]
fn chosen(
    alloc: Global,
    tables: &Tables<'_>,
    wanted: &TypeExpr,
    ty: &TypeExpr,
) -> Result<Option<TypeExpr>, NoMemory>
    requires { IsTables tables.now }
    ensures { IfOk result (λ found. found ≡ chosen tables.now.world.now.recs wanted.now ty.now) }
{
    let open = open_parent(alloc, tables.world.recs.as_slice(), ty)?;
    let interfaces = interfaces_of(alloc, tables, &open)?;
    let found = first_implied(alloc, tables, args_of(ty), wanted, interfaces.as_slice())?;
    Ok(found)
}

/// The nearest among a type and its bases that chooses an instance for this one.
fn nearest_choice(
    alloc: Global,
    tables: &Tables<'_>,
    wanted: &TypeExpr,
    t: &TypeExpr,
) -> Result<Option<Choice>, NoMemory>
    requires { IsTables tables.now }
    ensures { IfOk result (λ found. option_map told found ≡ nearest (choice_in tables.now.world.now.recs wanted.now) (with_bases tables.now.world.now.recs t.now)) }
{
    let count = type_count(tables)?;
    let mut ty = t.copy(alloc)?;
    for _ in 0..count {
        match chosen(alloc, tables, wanted, &ty) {
            Ok(Some(instance)) => return Ok(Some(Choice { of: ty, instance })),
            Ok(None) => {}
            Err(error) => return Err(error),
        }
        match base_of(alloc, tables, &ty) {
            Ok(Some(base)) => ty = base,
            Ok(None) => return Ok(None),
            Err(error) => return Err(error),
        }
    }
    Ok(None)
}

/// What a type itself has for a slot of this name and signature in an interface instance: the body of a MethodImpl row, and
/// else its method.
fn interface_look(
    alloc: Global,
    tables: &Tables<'_>,
    slots: &Slots,
    slot: RowAt,
    instance: &TypeExpr,
    name: &[u8],
    wanted: &Option<Wanted>,
    ty: &TypeExpr,
) -> Result<Option<RowAt>, NoMemory>
    requires tables { IsTables tables.now }
    requires slots { AreSlots tables.now.world.now.recs slots.now }
    ensures { IfOk result (λ found. found ≡ interface_look tables.now.world.now.recs slot instance.now name.now wanted.now ty.now) }
{
    let declares = Declares::In {
        slot,
        instance,
        targs: args_of(ty),
    };
    match impl_in(alloc, tables, slots, &declares, ty) {
        Ok(Some(at)) => Ok(Some(at)),
        Ok(None) => match wanted {
            Some(wanted) => match_in(alloc, tables, name, wanted, ty),
            None => Ok(None),
        },
        Err(error) => Err(error),
    }
}

/// What the nearest among a type and its bases has for such a slot.
fn nearest_look(
    alloc: Global,
    tables: &Tables<'_>,
    slots: &Slots,
    slot: RowAt,
    instance: &TypeExpr,
    name: &[u8],
    wanted: &Option<Wanted>,
    start: TypeExpr,
) -> Result<Option<RowAt>, NoMemory>
    requires tables { IsTables tables.now }
    requires slots { AreSlots tables.now.world.now.recs slots.now }
    ensures { IfOk result (λ found. found ≡ nearest (interface_look tables.now.world.now.recs slot instance.now name.now wanted.now) (with_bases tables.now.world.now.recs start)) }
{
    let count = type_count(tables)?;
    let mut ty = start;
    for _ in 0..count {
        match interface_look(alloc, tables, slots, slot, instance, name, wanted, &ty) {
            Ok(Some(at)) => return Ok(Some(at)),
            Ok(None) => {}
            Err(error) => return Err(error),
        }
        match base_of(alloc, tables, &ty) {
            Ok(Some(base)) => ty = base,
            Ok(None) => return Ok(None),
            Err(error) => return Err(error),
        }
    }
    Ok(None)
}

/// These types, with arguments put in.
fn subst_types(
    alloc: Global,
    targs: &[TypeExpr],
    types: &[TypeExpr],
) -> Result<Seq<TypeExpr>, NoMemory>
    ensures { IfOk result (λ made. made ≡ map (subst targs.now []) types.now) }
{
    let mut made = Seq::new(alloc);
    for e in types {
        let closed = e.subst(alloc, targs, &[])?;
        made.push(closed)?;
    }
    Ok(made)
}

/// A method's signature with arguments of its type put in.
#[tactic(auto, unfolding(rules::specs::link_rules::Signatures::subst_method))]
fn subst_method(
    alloc: Global,
    targs: &[TypeExpr],
    signature: &MethodType,
) -> Result<MethodType, NoMemory>
    ensures { IfOk result (λ made. made ≡ subst_method targs.now signature.now) }
{
    let ret = signature.ret.subst(alloc, targs, &[])?;
    let params = subst_types(alloc, targs, signature.params.as_slice())?;
    Ok(MethodType {
        this: signature.this,
        generic: signature.generic,
        ret,
        params,
    })
}

/// What is looked for by a slot's signature with arguments of its type put in; nothing where the signature is bad.
fn wanted_by(
    alloc: Global,
    targs: &[TypeExpr],
    signature: &Option<Known<MethodType>>,
) -> Result<Option<Wanted>, NoMemory>
    ensures { IfOk result (λ wanted. wanted ≡ option_map public_method (option_map (subst_method targs.now) (good_signature signature.now))) }
{
    match signature {
        Some(Known::Good(signature)) => {
            let made = subst_method(alloc, targs, signature)?;
            Ok(Some(Wanted::Method(Among::PublicVirtual, made)))
        }
        Some(Known::Bad(_)) => Ok(None),
        None => Ok(None),
    }
}

/// What the type that chose and its bases have for a slot, the type's own parameters left open.
#[tactic(auto, using(crate::proofs::Matching::nearest_public))]
pub fn from_choice(
    alloc: Global,
    tables: &Tables<'_>,
    slots: &Slots,
    slot: RowAt,
    m: &MethodDefRow,
    signature: &Option<Known<MethodType>>,
    choice: &Choice,
) -> Result<Option<RowAt>, NoMemory>
    requires tables { IsTables tables.now }
    requires slots { AreSlots tables.now.world.now.recs slots.now }
    ensures { IfOk result (λ found. found ≡ from_choice tables.now.world.now.recs slot m.now signature.now (told choice.now)) }
{
    let start = open_parent(alloc, tables.world.recs.as_slice(), &choice.of)?;
    let wanted = wanted_by(alloc, args_of(&choice.instance), signature)?;
    let name = m.name.as_slice();
    let found = nearest_look(
        alloc,
        tables,
        slots,
        slot,
        &choice.instance,
        name,
        &wanted,
        start,
    )?;
    Ok(found)
}

/// The method that the search for an interface slot finds first.
#[tactic(auto, unfolding(rules::specs::type_rules::Dispatch::interface_method))]
fn interface_method(
    alloc: Global,
    tables: &Tables<'_>,
    slots: &Slots,
    t: &TypeExpr,
    instance: &TypeExpr,
    slot: RowAt,
) -> Result<Option<RowAt>, NoMemory>
    requires tables { IsTables tables.now }
    requires slots { AreSlots tables.now.world.now.recs slots.now }
    ensures { IfOk result (λ found. found ≡ interface_method tables.now.world.now.recs t.now instance.now slot) }
{
    let Some(m) = method_at(tables, slot) else {
        return Ok(None);
    };
    let signature = method_type_at(alloc, tables, slot)?;
    match nearest_choice(alloc, tables, instance, t) {
        Ok(Some(choice)) => from_choice(alloc, tables, slots, slot, m, &signature, &choice),
        Ok(None) => Ok(None),
        Err(error) => Err(error),
    }
}

/// What a type has for a slot of an interface instance: the method that the search finds first is dispatched as a class slot.
#[tactic(auto, unfolding(rules::specs::type_rules::Dispatch::interface_dispatch))]
pub fn interface_dispatch(
    alloc: Global,
    tables: &Tables<'_>,
    slots: &Slots,
    t: &TypeExpr,
    instance: &TypeExpr,
    slot: RowAt,
) -> Result<Option<RowAt>, NoMemory>
    requires tables { IsTables tables.now }
    requires slots { AreSlots tables.now.world.now.recs slots.now }
    ensures { IfOk result (λ found. found ≡ interface_dispatch tables.now.world.now.recs t.now instance.now slot) }
{
    let Some(at) = interface_method(alloc, tables, slots, t, instance, slot)? else {
        return Ok(None);
    };
    match slot_of_method(tables, slots, at) {
        Some(own) => class_dispatch(alloc, tables, slots, t, own),
        None => Ok(None),
    }
}
