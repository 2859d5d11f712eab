//! Members that look at the object of a method, a field or a property, and those of MemberInfo.

ghost use Rattle.std.specs.Prelude.{◌≡◌, ◌&&◌, [], IfOk};
ghost use Rattle.std.specs.Option.{option_and_then, option_map};
ghost use Rattle.il_base.specs.declared.cil_values.definition.PropertyDef.{PropertyDef};
ghost use Rattle.rules.specs.step_rules.Words.{given, good};
ghost use Rattle.rules.specs.step_rules.CoreWords.{Gives};
ghost use Rattle.rules.specs.step_rules.CoreTypes.{typed_by};
ghost use Rattle.rules.specs.step_rules.CoreMembers.{member_by, name_of, member_name_form, gives_closed, closed_owner, member_owner_form, type_of_item, closed_type, member_type_form, is_static_item, method_is_static_form, same_item, same_found, same_member, member_same_form, member_other_form};
ghost use Rattle.machine_words.specs.cil_objects.Members.{seen_by};
ghost use Rattle.cil_core.specs.cil_members.Outs.{gives_by};

use crate::cil_members::{CoreOut, gives_truth, stopped_member, stuck_member};
use crate::cil_type_members::names::gives_bytes;
use crate::cil_type_members::type_values::{encloser_of, gives_encloser, gives_type};
use il_base::cil_values::{Method, PropertyDef, State, Value};
use il_base::world_model::{Known, TypeExpr};
use il_base::{Item, NoMemory, Text, has_flag, method_flags};
use machine_words::cil_closing::{are_whole, args_of, closed_return};
use machine_words::cil_objects::{SeenMember, member_by, typed_by};
use machine_words::cil_queries::Answers;
use std::alloc::Global;

/// The own name of a type, or the name of a member, whose object a value names. None for another value.
fn name_of<Q: Answers>(
    alloc: Global,
    q: &Q,
    st: &State,
    v: &Value,
) -> Result<Option<Text>, NoMemory>
    ensures { IfOk result (λ name. name ≡ name_of (Q.queries q.now) (typed_by st.now v.now) (member_by st.now v.now)) }
{
    if let Some(ty) = typed_by(st, v) {
        let label = q.label(alloc, ty)?;
        return Ok(Some(label));
    }
    let Some(m) = member_by(st, v) else {
        return Ok(None);
    };
    let title = q.title(alloc, m.item)?;
    Ok(Some(title))
}

/// MemberInfo.get_Name().
#[tactic(auto, unfolding(rules::specs::step_rules::CoreMembers::member_name_form))]
pub fn member_name<Q: Answers>(
    alloc: Global,
    q: &Q,
    args: &[Value],
    st: &mut State,
) -> Result<CoreOut, NoMemory>
    ensures { IfOk result (λ out. (give : Gives) → gives_by out st.new [] give ≡ member_name_form (Q.queries q.now) args.now st.old give) }
{
    let [v] = args else {
        return Ok(stuck_member(st));
    };
    let Some(name) = name_of(alloc, q, st, v)? else {
        return Ok(stuck_member(st));
    };
    gives_bytes(alloc, name.as_slice(), st)
}

/// The member gives the object of a type. None, for a type with a generic parameter in it, ends the run.
fn gives_closed(alloc: Global, ty: &Option<TypeExpr>, st: &mut State) -> Result<CoreOut, NoMemory>
    ensures { IfOk result (λ out. (give : Gives) → gives_by out st.new [] give ≡ gives_closed st.old give ty.now) }
{
    match ty {
        None => Ok(stopped_member(st)),
        Some(ty) => gives_type(alloc, ty, st),
    }
}

/// The closed type in which a member was found. None where generic parameters are among its arguments.
fn closed_owner<Q: Answers>(
    alloc: Global,
    q: &Q,
    owner: &TypeExpr,
) -> Result<Option<TypeExpr>, NoMemory>
    ensures { IfOk result (λ ty. ty ≡ closed_owner (Q.queries q.now) owner.now) }
{
    if !are_whole(q, args_of(owner)) {
        return Ok(None);
    }
    let copy = owner.copy(alloc)?;
    Ok(Some(copy))
}

/// The member gives the type in which the member that a value names was found.
fn owner_of_member<Q: Answers>(
    alloc: Global,
    q: &Q,
    v: &Value,
    st: &mut State,
) -> Result<CoreOut, NoMemory>
    ensures { IfOk result (λ out. (give : Gives) → gives_by out st.new [] give ≡ given (member_by st.old v.now) st.old (λ m. gives_closed st.old give (closed_owner (Q.queries q.now) m.owner))) }
{
    let Some(m) = member_by(st, v) else {
        return Ok(stuck_member(st));
    };
    let owner = closed_owner(alloc, q, m.owner)?;
    let out = gives_closed(alloc, &owner, st);
    drop(owner);
    out
}

/// MemberInfo.get_DeclaringType().
#[tactic(auto, unfolding(rules::specs::step_rules::CoreMembers::member_owner_form))]
pub fn member_owner<Q: Answers>(
    alloc: Global,
    q: &Q,
    args: &[Value],
    st: &mut State,
) -> Result<CoreOut, NoMemory>
    ensures { IfOk result (λ out. (give : Gives) → gives_by out st.new [] give ≡ member_owner_form (Q.queries q.now) args.now st.old give) }
{
    let [v] = args else {
        return Ok(stuck_member(st));
    };
    match typed_by(st, v) {
        Some(ty) => {
            let around = encloser_of(q, ty);
            gives_encloser(alloc, around, st)
        }
        None => owner_of_member(alloc, q, v, st),
    }
}

/// What a method returns. None for a signature without meaning.
fn return_of(alloc: Global, method: &Method) -> Result<Option<TypeExpr>, NoMemory>
    ensures { IfOk result (λ ty. ty ≡ option_map (λ sig. sig.ret) (good method.now.signature)) }
{
    match &method.signature {
        Known::Good(sig) => {
            let ty = sig.ret.copy(alloc)?;
            Ok(Some(ty))
        }
        Known::Bad(_) => Ok(None),
    }
}

/// A type that has a meaning.
fn good_type(alloc: Global, ty: &Known<TypeExpr>) -> Result<Option<TypeExpr>, NoMemory>
    ensures { IfOk result (λ copy. copy ≡ good ty.now) }
{
    match ty {
        Known::Good(ty) => {
            let ty = ty.copy(alloc)?;
            Ok(Some(ty))
        }
        Known::Bad(_) => Ok(None),
    }
}

/// The type of a property that isn't used again. None for a type without meaning.
fn type_alone(property: PropertyDef) -> Option<TypeExpr>
    ensures { result ≡ good property.typ }
{
    match property.typ {
        Known::Good(ty) => Some(ty),
        Known::Bad(_) => None,
    }
}

/// The type of a property. None for a type without meaning.
fn property_type<Q: Answers>(
    alloc: Global,
    q: &Q,
    property: u32,
) -> Result<Option<TypeExpr>, NoMemory>
    ensures { IfOk result (λ ty. ty ≡ option_and_then (λ (p : PropertyDef). good p.typ) ((Q.queries q.now).property property)) }
{
    match q.property(alloc, property)? {
        Some(found) => Ok(type_alone(found)),
        None => Ok(None),
    }
}

/// What a method returns, or a field or a property is of. None for a type without meaning.
fn type_of_item<Q: Answers>(alloc: Global, q: &Q, item: Item) -> Result<Option<TypeExpr>, NoMemory>
    ensures { IfOk result (λ ty. ty ≡ type_of_item (Q.queries q.now) item) }
{
    match item {
        Item::Method(id) => match q.method(id.0) {
            Some(method) => return_of(alloc, method),
            None => Ok(None),
        },
        Item::Field(id) => match q.field(id.0) {
            Some(field) => good_type(alloc, &field.typ),
            None => Ok(None),
        },
        Item::Prop(id) => property_type(alloc, q, id.0),
        Item::Asm(_) => Ok(None),
        Item::Typ(_) => Ok(None),
        Item::Event(_) => Ok(None),
        Item::Impl(_) => Ok(None),
    }
}

/// The same with the arguments of the type in which the member was found. None where it has then no meaning.
fn closed_type<Q: Answers>(
    alloc: Global,
    q: &Q,
    m: &SeenMember<'_>,
) -> Result<Option<TypeExpr>, NoMemory>
    ensures { IfOk result (λ ty. ty ≡ closed_type (Q.queries q.now) (seen_by m.now)) }
{
    let Some(ty) = type_of_item(alloc, q, m.item)? else {
        return Ok(None);
    };
    closed_return(alloc, q, args_of(m.owner), &[], &ty)
}

/// MethodInfo.get_ReturnType(), FieldInfo.get_FieldType(), PropertyInfo.get_PropertyType().
#[tactic(auto, unfolding(rules::specs::step_rules::CoreMembers::member_type_form))]
pub fn member_type<Q: Answers>(
    alloc: Global,
    q: &Q,
    args: &[Value],
    st: &mut State,
) -> Result<CoreOut, NoMemory>
    ensures { IfOk result (λ out. (give : Gives) → gives_by out st.new [] give ≡ member_type_form (Q.queries q.now) args.now st.old give) }
{
    let [v] = args else {
        return Ok(stuck_member(st));
    };
    let Some(m) = member_by(st, v) else {
        return Ok(stuck_member(st));
    };
    let ty = closed_type(alloc, q, &m)?;
    let out = gives_closed(alloc, &ty, st);
    drop(ty);
    out
}

/// Whether a method is static. None for another item.
fn is_static_item<Q: Answers>(q: &Q, item: Item) -> Option<bool>
    ensures { result ≡ is_static_item (Q.queries q.now) item }
{
    match item {
        Item::Method(id) => match q.method(id.0) {
            Some(method) => Some(has_flag(method.flags, method_flags::STATIC)),
            None => None,
        },
        Item::Field(_) => None,
        Item::Prop(_) => None,
        Item::Asm(_) => None,
        Item::Typ(_) => None,
        Item::Event(_) => None,
        Item::Impl(_) => None,
    }
}

/// MethodBase.get_IsStatic().
#[tactic(auto, unfolding(rules::specs::step_rules::CoreMembers::method_is_static_form))]
pub fn method_is_static<Q: Answers>(q: &Q, args: &[Value], st: &State) -> CoreOut
    ensures { (give : Gives) → gives_by result st.now [] give ≡ method_is_static_form (Q.queries q.now) args.now st.now give }
{
    let [v] = args else {
        return stuck_member(st);
    };
    let Some(m) = member_by(st, v) else {
        return stuck_member(st);
    };
    match is_static_item(q, m.item) {
        None => stuck_member(st),
        Some(yes) => gives_truth(st, yes),
    }
}

fn same_item(x: Item, y: Item) -> bool
    ensures { result ≡ same_item x y }
{
    match (x, y) {
        (Item::Method(a), Item::Method(b)) => a.0 == b.0,
        (Item::Field(a), Item::Field(b)) => a.0 == b.0,
        (Item::Prop(a), Item::Prop(b)) => a.0 == b.0,
        _ => false,
    }
}

/// Whether two objects are of the same member, found in the same closed type. None where one isn't the object of a member.
fn same_found(st: &State, v: &Value, w: &Value) -> Option<bool>
    ensures { result ≡ same_found (member_by st.now v.now) (member_by st.now w.now) }
{
    let Some(x) = member_by(st, v) else {
        return None;
    };
    let Some(y) = member_by(st, w) else {
        return None;
    };
    Some(same_item(x.item, y.item) && x.owner.is_same(y.owner))
}

/// The same where both may be null. None for any other values.
fn same_member(st: &State, v: &Value, w: &Value) -> Option<bool>
    ensures { result ≡ same_member st.now v.now w.now }
{
    match (v, w) {
        (Value::Null, Value::Null) => Some(true),
        (Value::Null, Value::Object(_)) => Some(false),
        (Value::Object(_), Value::Null) => Some(false),
        (Value::Object(_), Value::Object(_)) => same_found(st, v, w),
        _ => None,
    }
}

/// op_Equality of MethodInfo, FieldInfo and PropertyInfo.
#[tactic(auto, unfolding(rules::specs::step_rules::CoreMembers::member_same_form))]
pub fn member_same<Q: Answers>(q: &Q, args: &[Value], st: &State) -> CoreOut
    ensures { (give : Gives) → gives_by result st.now [] give ≡ member_same_form (Q.queries q.now) args.now st.now give }
{
    match args {
        [v, w] => match same_member(st, v, w) {
            None => stuck_member(st),
            Some(same) => gives_truth(st, same),
        },
        _ => stuck_member(st),
    }
}

/// op_Inequality of MethodInfo, FieldInfo and PropertyInfo.
#[tactic(auto, unfolding(rules::specs::step_rules::CoreMembers::member_other_form))]
pub fn member_other<Q: Answers>(q: &Q, args: &[Value], st: &State) -> CoreOut
    ensures { (give : Gives) → gives_by result st.now [] give ≡ member_other_form (Q.queries q.now) args.now st.now give }
{
    match args {
        [v, w] => match same_member(st, v, w) {
            None => stuck_member(st),
            Some(same) => gives_truth(st, !same),
        },
        _ => stuck_member(st),
    }
}
