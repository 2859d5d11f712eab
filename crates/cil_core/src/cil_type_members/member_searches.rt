//! Searches for the members of a type.

ghost use Rattle.std.specs.Prelude.{◌≡◌, ℕ, [], List, Some, IfOk};
ghost use Rattle.il_base.specs.declared.cil_values.state.State.{State};
ghost use Rattle.il_base.specs.declared.cil_values.value.Value.{Value};
ghost use Rattle.il_base.specs.declared.cil_values.value.Value.TheVariants.{Object};
ghost use Rattle.rules.specs.step_rules.Next.{Next};
ghost use Rattle.rules.specs.step_rules.Objects.{bytes_of_units};
ghost use Rattle.rules.specs.step_rules.Words.{made};
ghost use Rattle.rules.specs.step_rules.CoreWords.{Gives, gives_value};
ghost use Rattle.rules.specs.step_rules.CoreSearches.{member_object, gives_found, member_find_form, all_made, info_name, gives_all, member_list_form};
ghost use Rattle.cil_core.specs.cil_members.Outs.{gives_by};

use crate::cil_members::{CoreOut, gives_value, raised, stuck_member};
use il_base::cil_values::{MemberKind, Obj, State, Value};
use il_base::core_table::CoreName;
use il_base::world_model::TypeExpr;
use il_base::{NoMemory, Seq};
use machine_words::cil_objects::{bytes_of_units, core_type, typed_by, units_of};
use machine_words::cil_queries::Answers;
use rules::type_rules::FoundMember;
use std::alloc::Global;

/// A new object of a member.
fn new_member(alloc: Global, st: &mut State, m: &FoundMember) -> Result<u32, NoMemory>
    ensures { IfOk result (λ at. (f : ℕ → State → Next) → made (member_object m.now) st.old f ≡ f at st.new) }
{
    let owner = m.owner.copy(alloc)?;
    let at = st.heap.add(Obj::Member(m.item, owner))?;
    Ok(at)
}

/// The call gives a new object of a member.
fn gives_member(alloc: Global, m: &FoundMember, st: &mut State) -> Result<CoreOut, NoMemory>
    ensures { IfOk result (λ out. (give : Gives) → gives_by out st.new [] give ≡ made (member_object m.now) st.old (λ at t. gives_value (Object at) t give)) }
{
    let at = new_member(alloc, st, m)?;
    Ok(gives_value(st, Value::Object(at)))
}

/// None is null, several are ambiguous.
fn gives_found<Q: Answers>(
    alloc: Global,
    q: &Q,
    found: &[FoundMember],
    st: &mut State,
) -> Result<CoreOut, NoMemory>
    ensures { IfOk result (λ out. (give : Gives) → gives_by out st.new [] give ≡ gives_found (Q.queries q.now) st.old give found.now) }
{
    match found {
        [] => Ok(gives_value(st, Value::Null)),
        [m] => gives_member(alloc, m, st),
        [_, _, ..] => raised(alloc, q, CoreName::AmbiguousMatchException, st),
    }
}

/// The members of a kind that a type has under a name in UTF-16.
fn members_named<Q: Answers>(
    alloc: Global,
    q: &Q,
    kind: MemberKind,
    ty: &TypeExpr,
    units: &[u16],
) -> Result<Seq<FoundMember>, NoMemory>
    ensures { IfOk result (λ found. found ≡ (Q.queries q.now).members kind (Some (bytes_of_units units.now)) ty.now) }
{
    let name = bytes_of_units(alloc, units)?;
    let name = Some(name);
    let found = q.members(alloc, kind, &name, ty)?;
    Ok(found)
}

/// Type.GetMethod(string), GetField(string), GetProperty(string).
#[tactic(auto, unfolding(rules::specs::step_rules::CoreSearches::member_find_form))]
pub fn member_find<Q: Answers>(
    alloc: Global,
    q: &Q,
    kind: MemberKind,
    args: &[Value],
    st: &mut State,
) -> Result<CoreOut, NoMemory>
    ensures { IfOk result (λ out. (give : Gives) → gives_by out st.new [] give ≡ member_find_form kind (Q.queries q.now) args.now st.old give) }
{
    let [v, w] = args else {
        return Ok(stuck_member(st));
    };
    let Some(ty) = typed_by(st, v) else {
        return Ok(stuck_member(st));
    };
    match w {
        Value::Null => raised(alloc, q, CoreName::NullReferenceException, st),
        Value::Object(_) => {
            let Some(units) = units_of(st, w) else {
                return Ok(stuck_member(st));
            };
            let found = members_named(alloc, q, kind, ty, units.as_slice())?;
            let out = gives_found(alloc, q, found.as_slice(), st);
            drop(found);
            out
        }
        Value::I4(_) => Ok(stuck_member(st)),
        Value::I8(_) => Ok(stuck_member(st)),
        Value::Native(_) => Ok(stuck_member(st)),
        Value::Pointer(_) => Ok(stuck_member(st)),
        Value::Struct(_, _) => Ok(stuck_member(st)),
        Value::Handle(_) => Ok(stuck_member(st)),
        Value::FieldHandle(_) => Ok(stuck_member(st)),
    }
}

/// New objects of members, in their order.
fn all_made(alloc: Global, members: &[FoundMember], st: &mut State) -> Result<Seq<Value>, NoMemory>
    ensures { IfOk result (λ vs. (f : List Value → State → Next) → all_made members.now [] st.old f ≡ f vs st.new) }
{
    let mut cells = Seq::new(alloc);
    for m in members {
        let at = new_member(alloc, st, m)?;
        cells.push(Value::Object(at))?;
    }
    Ok(cells)
}

/// The type of a kind's objects.
fn info_name(kind: MemberKind) -> CoreName
    ensures { result ≡ info_name kind }
{
    match kind {
        MemberKind::Method => CoreName::MethodInfo,
        MemberKind::Field => CoreName::FieldInfo,
        MemberKind::Property => CoreName::PropertyInfo,
    }
}

/// The call gives a new array of new objects of members.
fn gives_all<Q: Answers>(
    alloc: Global,
    q: &Q,
    kind: MemberKind,
    members: &[FoundMember],
    st: &mut State,
) -> Result<CoreOut, NoMemory>
    ensures { IfOk result (λ out. (give : Gives) → gives_by out st.new [] give ≡ gives_all (Q.queries q.now) st.old give kind members.now) }
{
    let cells = all_made(alloc, members, st)?;
    let of = core_type(q, info_name(kind));
    let at = st.heap.add(Obj::Array { of, cells })?;
    Ok(gives_value(st, Value::Object(at)))
}

/// Type.GetMethods(), GetFields(), GetProperties().
#[tactic(auto, unfolding(rules::specs::step_rules::CoreSearches::member_list_form))]
pub fn member_list<Q: Answers>(
    alloc: Global,
    q: &Q,
    kind: MemberKind,
    args: &[Value],
    st: &mut State,
) -> Result<CoreOut, NoMemory>
    ensures { IfOk result (λ out. (give : Gives) → gives_by out st.new [] give ≡ member_list_form kind (Q.queries q.now) args.now st.old give) }
{
    let [v] = args else {
        return Ok(stuck_member(st));
    };
    let Some(ty) = typed_by(st, v) else {
        return Ok(stuck_member(st));
    };
    let found = q.members(alloc, kind, &None, ty)?;
    let out = gives_all(alloc, q, kind, found.as_slice(), st);
    drop(found);
    out
}
