//! Which method a member calls by reflection, and what it gives for the method's result.

ghost use Rattle.std.specs.Prelude.{◌≡◌, [], IfOk};
ghost use Rattle.std.specs.Option.{option_and_then, option_map};
ghost use Rattle.il_base.specs.declared.cil_values.definition.PropertyDef.{PropertyDef as Property};
ghost use Rattle.rules.specs.step_rules.CoreWords.{Gives, gives_boxed};
ghost use Rattle.rules.specs.step_rules.CoreInvoking.{accessor_owner, accessor_use, called_for, getter_in, is_definition, method_in, property_in, setter_in, use_of};
ghost use Rattle.rules.specs.step_rules.Core.{gives_returned, returned_type};
ghost use Rattle.machine_words.specs.cil_closing.Callees.{callee_by};
ghost use Rattle.machine_words.specs.cil_objects.Members.{seen_by};
ghost use Rattle.cil_core.specs.cil_members.Outs.{KeepsFrames, gives_by};

use crate::cil_members::{CoreOut, gives_value, stuck_member};
use il_base::cil_values::{CoreCall, Method, Obj, PropertyDef, State, Value};
use il_base::world_model::{MethodUse, TypeExpr};
use il_base::{Item, MethodId, NoMemory, Seq, TypeId};
use machine_frames::cil_frames::definition_of;
use machine_words::cil_closing::{Callee, callee_of};
use machine_words::cil_objects::{SeenMember, member_by};
use machine_words::cil_queries::Answers;
use machine_words::cil_stores::is_value;
use std::alloc::Global;

/// A method in the type in which it was found.
fn use_of(alloc: Global, owner: TypeExpr, method: u32) -> MethodUse
    ensures { result ≡ use_of owner method }
{
    MethodUse {
        method: MethodId(method),
        owner,
        args: Seq::new(alloc),
    }
}

fn is_definition(found: Option<u32>, wanted: u32) -> bool
    ensures { result ≡ is_definition found wanted }
{
    match found {
        None => false,
        Some(id) => id == wanted,
    }
}

/// An accessor is of the type in which the property was found. One in another type is of that definition.
fn accessor_owner(alloc: Global, owner: &TypeExpr, m: &Method) -> Result<TypeExpr, NoMemory>
    ensures { IfOk result (λ ty. ty ≡ accessor_owner owner.now m.now) }
{
    if is_definition(definition_of(owner), m.owner) {
        owner.copy(alloc)
    } else {
        Ok(TypeExpr::Def(TypeId(m.owner)))
    }
}

/// An accessor of a property that was found in a type. None where there is none.
fn accessor_use<Q: Answers>(
    alloc: Global,
    q: &Q,
    owner: &TypeExpr,
    accessor: Option<u32>,
) -> Result<Option<MethodUse>, NoMemory>
    ensures { IfOk result (λ found. found ≡ option_and_then (accessor_use (Q.queries q.now) owner.now) accessor) }
{
    let Some(n) = accessor else {
        return Ok(None);
    };
    let Some(m) = q.method(n) else {
        return Ok(None);
    };
    let of = accessor_owner(alloc, owner, m)?;
    Ok(Some(use_of(alloc, of, n)))
}

fn method_in(item: Item) -> Option<u32>
    ensures { result ≡ method_in item }
{
    match item {
        Item::Method(id) => Some(id.0),
        Item::Field(_) => None,
        Item::Prop(_) => None,
        Item::Asm(_) => None,
        Item::Typ(_) => None,
        Item::Event(_) => None,
        Item::Impl(_) => None,
    }
}

fn property_in<Q: Answers>(
    alloc: Global,
    q: &Q,
    item: Item,
) -> Result<Option<PropertyDef>, NoMemory>
    ensures { IfOk result (λ found. found ≡ property_in (Q.queries q.now) item) }
{
    match item {
        Item::Prop(id) => q.property(alloc, id.0),
        Item::Method(_) => Ok(None),
        Item::Field(_) => Ok(None),
        Item::Asm(_) => Ok(None),
        Item::Typ(_) => Ok(None),
        Item::Event(_) => Ok(None),
        Item::Impl(_) => Ok(None),
    }
}

/// The getter of a property, by its place in the world.
fn getter_in<Q: Answers>(alloc: Global, q: &Q, item: Item) -> Result<Option<u32>, NoMemory>
    ensures { IfOk result (λ found. found ≡ getter_in (Q.queries q.now) item) }
{
    match property_in(alloc, q, item)? {
        None => Ok(None),
        Some(p) => Ok(p.getter),
    }
}

/// The setter of a property, by its place in the world.
fn setter_in<Q: Answers>(alloc: Global, q: &Q, item: Item) -> Result<Option<u32>, NoMemory>
    ensures { IfOk result (λ found. found ≡ setter_in (Q.queries q.now) item) }
{
    match property_in(alloc, q, item)? {
        None => Ok(None),
        Some(p) => Ok(p.setter),
    }
}

/// The method itself.
fn own_use(alloc: Global, m: &SeenMember<'_>) -> Result<Option<MethodUse>, NoMemory>
    ensures { IfOk result (λ found. found ≡ option_map (use_of (seen_by m.now).owner) (method_in (seen_by m.now).item)) }
{
    let Some(n) = method_in(m.item) else {
        return Ok(None);
    };
    let owner = m.owner.copy(alloc)?;
    Ok(Some(use_of(alloc, owner, n)))
}

/// What a member of the core library calls for a member of a type: the method itself, or an accessor of the property. None where there
/// is none.
#[tactic(auto, unfolding(rules::specs::step_rules::CoreInvoking::called_for))]
pub fn called_for<Q: Answers>(
    alloc: Global,
    q: &Q,
    member: CoreCall,
    m: &SeenMember<'_>,
) -> Result<Option<MethodUse>, NoMemory>
    ensures { IfOk result (λ found. found ≡ called_for (Q.queries q.now) member (seen_by m.now)) }
{
    match member {
        CoreCall::Invoke => own_use(alloc, m),
        CoreCall::PropertyGet => {
            let getter = getter_in(alloc, q, m.item)?;
            accessor_use(alloc, q, m.owner, getter)
        }
        CoreCall::PropertySet => {
            let setter = setter_in(alloc, q, m.item)?;
            accessor_use(alloc, q, m.owner, setter)
        }
        _ => Ok(None),
    }
}

fn return_type(alloc: Global, c: &Callee) -> Result<TypeExpr, NoMemory>
    ensures { IfOk result (λ ty. ty ≡ (callee_by c.now).signature.ret) }
{
    c.signature.get().ret.copy(alloc)
}

/// What the method returns that a member called for the member object, its first argument.
fn returned_type<Q: Answers>(
    alloc: Global,
    q: &Q,
    st: &State,
    member: CoreCall,
    args: &[Value],
) -> Result<Option<TypeExpr>, NoMemory>
    ensures { IfOk result (λ ty. ty ≡ returned_type (Q.queries q.now) st.now member args.now) }
{
    let [v, ..] = args else {
        return Ok(None);
    };
    let Some(m) = member_by(st, v) else {
        return Ok(None);
    };
    let Some(called) = called_for(alloc, q, member, &m)? else {
        return Ok(None);
    };
    let Some(c) = callee_of(alloc, q, called)? else {
        return Ok(None);
    };
    let ty = return_type(alloc, &c)?;
    Ok(Some(ty))
}

/// A value as an object: that of a value type in a box (III.4.1).
pub fn gives_boxed<Q: Answers>(
    alloc: Global,
    q: &Q,
    ty: &TypeExpr,
    v: Value,
    st: &mut State,
) -> Result<CoreOut, NoMemory>
    ensures gives { IfOk result (λ out. (give : Gives) → gives_boxed (Q.queries q.now) ty.now v st.old give ≡ gives_by out st.new [] give) }
    ensures frames { IfOk result (λ out. KeepsFrames out st.old st.new) }
{
    if !is_value(alloc, q, ty)? {
        return Ok(gives_value(st, v));
    }
    let of = ty.copy(alloc)?;
    let a = st.heap.add(Obj::Boxed { of, value: v })?;
    Ok(gives_value(st, Value::Object(a)))
}

/// What a called method returned, as an object.
pub(crate) fn gives_returned<Q: Answers>(
    alloc: Global,
    q: &Q,
    member: CoreCall,
    args: &[Value],
    v: Value,
    st: &mut State,
) -> Result<CoreOut, NoMemory>
    ensures gives { IfOk result (λ out. (give : Gives) → gives_returned (Q.queries q.now) member args.now v st.old give ≡ gives_by out st.new [] give) }
    ensures frames { IfOk result (λ out. KeepsFrames out st.old st.new) }
{
    let Some(ty) = returned_type(alloc, q, st, member, args)? else {
        return Ok(stuck_member(st));
    };
    let out = gives_boxed(alloc, q, &ty, v, st);
    drop(ty);
    out
}
