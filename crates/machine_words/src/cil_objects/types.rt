//! Types of objects.

ghost use Rattle.std.specs.Prelude.{◌≡◌, Some, IfOk};
ghost use Rattle.rules.specs.step_rules.Words.{object_at};
ghost use Rattle.rules.specs.step_rules.Objects.{core_type, member_name, type_of, is_a};

use crate::cil_queries::Answers;
use il_base::cil_values::{Obj, State};
use il_base::core_table::CoreName;
use il_base::world_model::TypeExpr;
use il_base::{Boxed, Item, NoMemory, TypeId, element};
use std::alloc::Global;

/// A type of the core library that has no element type.
pub fn core_type<Q: Answers>(q: &Q, name: CoreName) -> TypeExpr
    ensures { result ≡ core_type (Q.queries q.now) name }
{
    TypeExpr::Def(TypeId(q.known(name)))
}

/// The class of the object of a member.
fn member_name(of: Item) -> CoreName
    ensures { result ≡ member_name of }
{
    match of {
        Item::Method(_) => CoreName::MethodInfo,
        Item::Field(_) => CoreName::FieldInfo,
        Item::Prop(_) => CoreName::PropertyInfo,
        Item::Asm(_) => CoreName::MemberInfo,
        Item::Typ(_) => CoreName::MemberInfo,
        Item::Event(_) => CoreName::MemberInfo,
        Item::Impl(_) => CoreName::MemberInfo,
    }
}

/// The type of an object.
#[tactic(auto, unfolding(rules::specs::step_rules::Objects::type_of))]
pub fn type_of<Q: Answers>(alloc: Global, q: &Q, o: &Obj) -> Result<TypeExpr, NoMemory>
    ensures { IfOk result (λ ty. ty ≡ type_of (Q.queries q.now) o.now) }
{
    match o {
        Obj::Instance { of, .. } => of.copy(alloc),
        Obj::Boxed { of, .. } => of.copy(alloc),
        Obj::Array { of, .. } => {
            let of = of.copy(alloc)?;
            let of = Boxed::new(alloc, of)?;
            Ok(TypeExpr::Array(of))
        }
        Obj::Str(_) => Ok(TypeExpr::Prim(element::STRING)),
        Obj::TypeOf(_) => Ok(core_type(q, CoreName::Type)),
        Obj::Member(of, _) => Ok(core_type(q, member_name(*of))),
    }
}

/// Whether an object is of a closed type (I.8.7).
pub fn object_is_a<Q: Answers>(
    alloc: Global,
    q: &Q,
    ty: &TypeExpr,
    o: &Obj,
) -> Result<bool, NoMemory>
    ensures { IfOk result (λ yes. yes ≡ is_a (Q.queries q.now) ty.now (Some o.now)) }
{
    let of = type_of(alloc, q, o)?;
    q.below(alloc, &of, ty)
}

/// Whether the object with a number is of a closed type. False where there is no such object.
pub fn is_a<Q: Answers>(
    alloc: Global,
    q: &Q,
    st: &State,
    ty: &TypeExpr,
    at: u32,
) -> Result<bool, NoMemory>
    ensures { IfOk result (λ yes. yes ≡ is_a (Q.queries q.now) ty.now (object_at st.now at)) }
{
    match st.heap.get(at) {
        None => Ok(false),
        Some(o) => object_is_a(alloc, q, ty, o),
    }
}
