//! Names of types, as reflection gives them.

ghost use Rattle.std.specs.Prelude.{◌≡◌, [], IfOk};
ghost use Rattle.rules.specs.step_rules.Objects.{units_of_bytes};
ghost use Rattle.rules.specs.step_rules.CoreWords.{Gives, gives_text};
ghost use Rattle.rules.specs.step_rules.CoreTypes.{gives_space, is_constructed, type_full_name_form, type_namespace_form, type_text_form};
ghost use Rattle.cil_core.specs.cil_members.Outs.{gives_by};

use crate::cil_members::{CoreOut, gives_text, gives_value, stopped_member, stuck_member};
use crate::cil_object_members::units_of_bytes;
use il_base::NoMemory;
use il_base::cil_values::{State, Value};
use il_base::world_model::TypeExpr;
use machine_words::cil_objects::typed_by;
use machine_words::cil_queries::Answers;
use std::alloc::Global;

/// The member gives a new string, of this text in UTF-8.
pub(crate) fn gives_bytes(alloc: Global, bytes: &[u8], st: &mut State) -> Result<CoreOut, NoMemory>
    ensures { IfOk result (λ out. (give : Gives) → gives_by out st.new [] give ≡ gives_text (units_of_bytes bytes.now) st.old give) }
{
    let units = units_of_bytes(alloc, bytes)?;
    gives_text(alloc, units, st)
}

/// Type.ToString(): the type's text.
#[tactic(auto, unfolding(rules::specs::step_rules::CoreTypes::type_text_form))]
pub fn type_text<Q: Answers>(
    alloc: Global,
    q: &Q,
    args: &[Value],
    st: &mut State,
) -> Result<CoreOut, NoMemory>
    ensures { IfOk result (λ out. (give : Gives) → gives_by out st.new [] give ≡ type_text_form (Q.queries q.now) args.now st.old give) }
{
    let [v] = args else {
        return Ok(stuck_member(st));
    };
    let Some(ty) = typed_by(st, v) else {
        return Ok(stuck_member(st));
    };
    let text = q.text(alloc, ty)?;
    gives_bytes(alloc, text.as_slice(), st)
}

/// Whether a type, or the element of an array, has generic arguments.
#[tactic(auto, using(crate::proofs::lemmas::cil_type_members::Constructed::constructing))]
fn is_constructed(ty: &TypeExpr) -> bool
    ensures { result ≡ is_constructed ty.now }
{
    match ty {
        TypeExpr::Inst(_, _) => true,
        TypeExpr::Array(of) => is_constructed(of.get()),
        TypeExpr::ByRef(to) => is_constructed(to.get()),
        TypeExpr::Mod {
            required: _,
            by: _,
            inner,
        } => is_constructed(inner.get()),
        TypeExpr::Prim(_) => false,
        TypeExpr::Def(_) => false,
        TypeExpr::Var(_) => false,
        TypeExpr::MVar(_) => false,
    }
}

/// Type.get_FullName(): the text; of a constructed type it ends the run.
#[tactic(auto, unfolding(rules::specs::step_rules::CoreTypes::type_full_name_form))]
pub fn type_full_name<Q: Answers>(
    alloc: Global,
    q: &Q,
    args: &[Value],
    st: &mut State,
) -> Result<CoreOut, NoMemory>
    ensures { IfOk result (λ out. (give : Gives) → gives_by out st.new [] give ≡ type_full_name_form (Q.queries q.now) args.now st.old give) }
{
    let [v] = args else {
        return Ok(stuck_member(st));
    };
    let Some(ty) = typed_by(st, v) else {
        return Ok(stuck_member(st));
    };
    if is_constructed(ty) {
        return Ok(stopped_member(st));
    }
    let text = q.text(alloc, ty)?;
    gives_bytes(alloc, text.as_slice(), st)
}

/// The member gives a namespace: null where it is empty.
fn gives_space(alloc: Global, bytes: &[u8], st: &mut State) -> Result<CoreOut, NoMemory>
    ensures { IfOk result (λ out. (give : Gives) → gives_by out st.new [] give ≡ gives_space st.old give bytes.now) }
{
    match bytes {
        [] => Ok(gives_value(st, Value::Null)),
        [_, ..] => gives_bytes(alloc, bytes, st),
    }
}

/// Type.get_Namespace(): that of the outermost type around it, null where it is empty.
#[tactic(auto, unfolding(rules::specs::step_rules::CoreTypes::type_namespace_form))]
pub fn type_namespace<Q: Answers>(
    alloc: Global,
    q: &Q,
    args: &[Value],
    st: &mut State,
) -> Result<CoreOut, NoMemory>
    ensures { IfOk result (λ out. (give : Gives) → gives_by out st.new [] give ≡ type_namespace_form (Q.queries q.now) args.now st.old give) }
{
    let [v] = args else {
        return Ok(stuck_member(st));
    };
    let Some(ty) = typed_by(st, v) else {
        return Ok(stuck_member(st));
    };
    let space = q.space(alloc, ty)?;
    gives_space(alloc, space.as_slice(), st)
}
