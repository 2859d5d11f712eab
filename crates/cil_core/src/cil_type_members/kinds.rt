//! Kinds of types.

ghost use Rattle.std.specs.Prelude.{◌≡◌, [], IfOk};
ghost use Rattle.il_base.specs.declared.world_model.expr.TypeExpr.{out-TypeExpr};
ghost use Rattle.rules.specs.step_rules.Queries.{Queries};
ghost use Rattle.rules.specs.step_rules.CoreWords.{Gives};
ghost use Rattle.rules.specs.step_rules.CoreTypes.{is_array_in, is_value_type, type_is_array_form, type_is_interface_form, type_is_value_form};
ghost use Rattle.cil_core.specs.cil_members.Outs.{gives_by};

use crate::cil_members::{CoreOut, gives_truth, stuck_member};
use il_base::cil_values::{State, Value};
use il_base::core_table::CoreName;
use il_base::world_model::TypeExpr;
use il_base::{NoMemory, type_flags};
use machine_frames::cil_frames::{head_has, head_of};
use machine_words::cil_objects::{core_type, typed_by};
use machine_words::cil_queries::Answers;
use std::alloc::Global;

/// Whether a type is below ValueType, but neither this nor Enum (I.8.2.4).
#[tactic(auto, unfolding(rules::specs::step_rules::CoreTypes::is_value_type))]
fn is_value_type<Q: Answers>(alloc: Global, q: &Q, ty: &TypeExpr) -> Result<bool, NoMemory>
    ensures { IfOk result (λ is. is ≡ is_value_type (Q.queries q.now) ty.now) }
{
    let values = core_type(q, CoreName::ValueType);
    let enums = core_type(q, CoreName::Enum);
    let is_below = q.below(alloc, ty, &values)?;
    Ok(is_below && !ty.is_same(&values) && !ty.is_same(&enums))
}

/// Type.get_IsValueType().
#[tactic(auto, unfolding(rules::specs::step_rules::CoreTypes::type_is_value_form))]
pub fn type_is_value<Q: Answers>(
    alloc: Global,
    q: &Q,
    args: &[Value],
    st: &State,
) -> Result<CoreOut, NoMemory>
    ensures { IfOk result (λ out. (give : Gives) → gives_by out st.now [] give ≡ type_is_value_form (Q.queries q.now) args.now st.now give) }
{
    let [v] = args else {
        return Ok(stuck_member(st));
    };
    let Some(ty) = typed_by(st, v) else {
        return Ok(stuck_member(st));
    };
    let is = is_value_type(alloc, q, ty)?;
    Ok(gives_truth(st, is))
}

/// Type.get_IsInterface().
#[tactic(auto, unfolding(rules::specs::step_rules::CoreTypes::type_is_interface_form))]
pub fn type_is_interface<Q: Answers>(q: &Q, args: &[Value], st: &State) -> CoreOut
    ensures { (give : Gives) → gives_by result st.now [] give ≡ type_is_interface_form (Q.queries q.now) args.now st.now give }
{
    let [v] = args else {
        return stuck_member(st);
    };
    let Some(ty) = typed_by(st, v) else {
        return stuck_member(st);
    };
    gives_truth(st, head_has(type_flags::INTERFACE, head_of(q, ty)))
}

/// Whether a type is that of an array.
fn is_array(ty: &TypeExpr) -> bool
    ensures { result ≡ is_array_in (out-TypeExpr ty.now) }
{
    match ty {
        TypeExpr::Array(_) => true,
        TypeExpr::Prim(_) => false,
        TypeExpr::Def(_) => false,
        TypeExpr::Inst(_, _) => false,
        TypeExpr::ByRef(_) => false,
        TypeExpr::Var(_) => false,
        TypeExpr::MVar(_) => false,
        TypeExpr::Mod {
            required: _,
            by: _,
            inner: _,
        } => false,
    }
}

/// Type.get_IsArray().
#[tactic(auto, unfolding(rules::specs::step_rules::CoreTypes::type_is_array_form))]
pub fn type_is_array(args: &[Value], st: &State) -> CoreOut
    ensures { (q : Queries) (give : Gives) → gives_by result st.now [] give ≡ type_is_array_form q args.now st.now give }
{
    let [v] = args else {
        return stuck_member(st);
    };
    let Some(ty) = typed_by(st, v) else {
        return stuck_member(st);
    };
    gives_truth(st, is_array(ty))
}
