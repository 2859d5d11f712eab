//! Types and objects against types.

ghost use Rattle.std.specs.Prelude.{◌≡◌, [], IfOk};
ghost use Rattle.rules.specs.step_rules.Queries.{Queries};
ghost use Rattle.rules.specs.step_rules.Words.{given};
ghost use Rattle.rules.specs.step_rules.CoreWords.{Gives, gives_truth};
ghost use Rattle.rules.specs.step_rules.CoreTypes.{fits_type, is_object_of, type_fits_form, type_has_form, type_other_form, typed_by};
ghost use Rattle.cil_core.specs.cil_members.Outs.{gives_by};
ghost use Rattle.cil_core.specs.cil_type_members.Fits.{fits_next};

use crate::cil_members::{CoreOut, gives_truth, raised, stuck_member};
use crate::cil_object_members::is_same;
use il_base::NoMemory;
use il_base::cil_values::{State, Value};
use il_base::core_table::CoreName;
use il_base::world_model::TypeExpr;
use machine_words::cil_objects::{is_a, typed_by};
use machine_words::cil_queries::Answers;
use std::alloc::Global;

/// Type.op_Inequality(Type, Type): one type has one object.
#[tactic(auto, unfolding(rules::specs::step_rules::CoreTypes::type_other_form))]
pub fn type_other(args: &[Value], st: &State) -> CoreOut
    ensures { (q : Queries) (give : Gives) → gives_by result st.now [] give ≡ type_other_form q args.now st.now give }
{
    match args {
        [v, w] => match is_same(v, w) {
            None => stuck_member(st),
            Some(same) => gives_truth(st, !same),
        },
        _ => stuck_member(st),
    }
}

/// The member gives whether the type whose object a value names can stand for a type (I.8.7).
fn fits_value<Q: Answers>(
    alloc: Global,
    q: &Q,
    ty: &TypeExpr,
    w: &Value,
    st: &State,
) -> Result<CoreOut, NoMemory>
    ensures { IfOk result (λ out. (give : Gives) → gives_by out st.now [] give ≡ given (typed_by st.now w.now) st.now (λ other. gives_truth ((Q.queries q.now).below other ty.now) st.now give)) }
{
    let Some(other) = typed_by(st, w) else {
        return Ok(stuck_member(st));
    };
    let fits = q.below(alloc, other, ty)?;
    Ok(gives_truth(st, fits))
}

/// The same for an argument of IsAssignableFrom. None for null: NullReferenceException is raised.
#[tactic(auto, unfolding(rules::specs::step_rules::CoreTypes::typed_by))]
fn fits_type<Q: Answers>(
    alloc: Global,
    q: &Q,
    ty: &TypeExpr,
    w: &Value,
    st: &State,
) -> Result<Option<CoreOut>, NoMemory>
    ensures { IfOk result (λ out. (give : Gives) → fits_type (Q.queries q.now) st.now give ty.now w.now ≡ fits_next out (Q.queries q.now) st.now give) }
{
    match w {
        Value::Null => Ok(None),
        Value::Object(_) => {
            let out = fits_value(alloc, q, ty, w, st)?;
            Ok(Some(out))
        }
        Value::I4(_) => Ok(Some(stuck_member(st))),
        Value::I8(_) => Ok(Some(stuck_member(st))),
        Value::Native(_) => Ok(Some(stuck_member(st))),
        Value::Pointer(_) => Ok(Some(stuck_member(st))),
        Value::Struct(_, _) => Ok(Some(stuck_member(st))),
        Value::Handle(_) => Ok(Some(stuck_member(st))),
        Value::FieldHandle(_) => Ok(Some(stuck_member(st))),
    }
}

/// Type.IsAssignableFrom(Type): whether the argument can stand for the type (I.8.7).
#[tactic(auto, unfolding(rules::specs::step_rules::CoreTypes::type_fits_form))]
pub fn type_fits<Q: Answers>(
    alloc: Global,
    q: &Q,
    args: &[Value],
    st: &mut State,
) -> Result<CoreOut, NoMemory>
    ensures { IfOk result (λ out. (give : Gives) → gives_by out st.new [] give ≡ type_fits_form (Q.queries q.now) args.now st.old give) }
{
    let [v, w] = args else {
        return Ok(stuck_member(st));
    };
    let Some(ty) = typed_by(st, v) else {
        return Ok(stuck_member(st));
    };
    match fits_type(alloc, q, ty, w, st)? {
        None => raised(alloc, q, CoreName::NullReferenceException, st),
        Some(out) => Ok(out),
    }
}

/// Whether a value is an object of a type (I.8.7).
fn is_object_of<Q: Answers>(
    alloc: Global,
    q: &Q,
    ty: &TypeExpr,
    w: &Value,
    st: &State,
) -> Result<bool, NoMemory>
    ensures { IfOk result (λ is. is ≡ is_object_of (Q.queries q.now) st.now ty.now w.now) }
{
    match w {
        Value::Object(at) => is_a(alloc, q, st, ty, *at),
        Value::Null => Ok(false),
        Value::I4(_) => Ok(false),
        Value::I8(_) => Ok(false),
        Value::Native(_) => Ok(false),
        Value::Pointer(_) => Ok(false),
        Value::Struct(_, _) => Ok(false),
        Value::Handle(_) => Ok(false),
        Value::FieldHandle(_) => Ok(false),
    }
}

/// Type.IsInstanceOfType(object): false for null.
#[tactic(auto, unfolding(rules::specs::step_rules::CoreTypes::type_has_form))]
pub fn type_has<Q: Answers>(
    alloc: Global,
    q: &Q,
    args: &[Value],
    st: &State,
) -> Result<CoreOut, NoMemory>
    ensures { IfOk result (λ out. (give : Gives) → gives_by out st.now [] give ≡ type_has_form (Q.queries q.now) args.now st.now give) }
{
    let [v, w] = args else {
        return Ok(stuck_member(st));
    };
    let Some(ty) = typed_by(st, v) else {
        return Ok(stuck_member(st));
    };
    let has = is_object_of(alloc, q, ty, w, st)?;
    Ok(gives_truth(st, has))
}
