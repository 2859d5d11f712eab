//! `ldtoken` (III.4.17).

ghost use Rattle.std.specs.Prelude.{◌≡◌, [], ◌∷◌, IfOk};
ghost use Rattle.il_base.specs.declared.cil_values.value.Value.TheVariants as value;
ghost use Rattle.rules.specs.step_rules.Words.{goes, had};
ghost use Rattle.rules.specs.step_rules.Closing.{accessed_use};
ghost use Rattle.rules.specs.step_rules.Types.{is_definition_in, closed_handle, load_handle, load_token};
ghost use Rattle.il_base.specs.declared.world_model.expr.TypeExpr.{out-TypeExpr};
ghost use Rattle.machine_words.specs.cil_words.Steps.{next_of, here_by};

use il_base::cil_values::{Instruction, State, Use, Value};
use il_base::world_model::{FieldUse, Known, TypeExpr};
use il_base::{FieldId, NoMemory};
use machine_numbers::cil_operands::gives;
use machine_words::cil_closing::{accessed_use, args_of, closed_return, without_modifiers};
use machine_words::cil_queries::Answers;
use machine_words::cil_words::{Body, StepOut, stopped, stuck};
use std::alloc::Global;

/// Whether a type is a definition, also a generic one without arguments.
fn is_definition(ty: &TypeExpr) -> bool
    ensures { result ≡ is_definition_in (out-TypeExpr ty.now) }
{
    match ty {
        TypeExpr::Def(_) => true,
        TypeExpr::Prim(_) => false,
        TypeExpr::Inst(_, _) => false,
        TypeExpr::Array(_) => false,
        TypeExpr::ByRef(_) => false,
        TypeExpr::Var(_) => false,
        TypeExpr::MVar(_) => false,
        TypeExpr::Mod {
            required: _,
            by: _,
            inner: _,
        } => false,
    }
}

/// The type of a handle. It can be a generic type's definition without arguments, and VOID.
#[tactic(auto, unfolding(rules::specs::step_rules::Types::closed_handle, rules::specs::step_rules::Closing::closed_return))]
fn closed_handle<Q: Answers>(
    alloc: Global,
    q: &Q,
    body: &Body,
    ty: &TypeExpr,
    st: &State,
) -> Result<Option<TypeExpr>, NoMemory>
    ensures { IfOk result (λ closed. closed ≡ closed_handle (Q.queries q.now) (here_by body.now st.now) ty.now) }
{
    let targs = args_of(&st.top.method.owner);
    let margs = st.top.method.args.as_slice();
    let whole = ty.subst(alloc, targs, margs)?;
    let closed = without_modifiers(whole);
    if is_definition(&closed) {
        return Ok(Some(closed));
    }
    closed_return(alloc, q, targs, margs, ty)
}

fn load_handle<Q: Answers>(
    alloc: Global,
    q: &Q,
    body: &Body,
    i: &Instruction,
    ty: &TypeExpr,
    st: &mut State,
) -> Result<StepOut, NoMemory>
    ensures { IfOk result (λ out. next_of out st.new [] ≡ load_handle (Q.queries q.now) (here_by body.now st.old) i.now st.old ty.now) }
{
    match closed_handle(alloc, q, body, ty, st)? {
        Some(closed) => {
            let handle = Value::handle(alloc, closed)?;
            gives(body, i, 0, handle, st)
        }
        None => Ok(stopped(st)),
    }
}

fn load_field_handle<Q: Answers>(
    alloc: Global,
    q: &Q,
    body: &Body,
    i: &Instruction,
    used: &FieldUse,
    st: &mut State,
) -> Result<StepOut, NoMemory>
    ensures { IfOk result (λ out. next_of out st.new [] ≡ had (accessed_use (Q.queries q.now) (here_by body.now st.old) used.now) st.old (λ a. goes (here_by body.now st.old) i.now (value.FieldHandle (record { 0 = a.id }) ∷ st.old.top.stack) st.old)) }
{
    match accessed_use(alloc, q, body, st, used)? {
        Some(a) => gives(body, i, 0, Value::FieldHandle(FieldId(a.id)), st),
        None => Ok(stopped(st)),
    }
}

/// `ldtoken` (III.4.17): of a type or a field. Of a method the run ends.
#[tactic(auto, unfolding(rules::specs::step_rules::Types::load_token, rules::specs::step_rules::Closing::closed_field))]
pub fn load_token<Q: Answers>(
    alloc: Global,
    q: &Q,
    body: &Body,
    i: &Instruction,
    st: &mut State,
) -> Result<StepOut, NoMemory>
    ensures { IfOk result (λ out. next_of out st.new [] ≡ load_token (Q.queries q.now) (here_by body.now st.old) i.now st.old) }
{
    match &i.operand {
        Use::Typ(Known::Good(ty)) => load_handle(alloc, q, body, i, ty, st),
        Use::Typ(Known::Bad(_)) => Ok(stopped(st)),
        Use::Field(Known::Good(used)) => load_field_handle(alloc, q, body, i, used, st),
        Use::Field(Known::Bad(_)) => Ok(stopped(st)),
        Use::Method(_) => Ok(stopped(st)),
        Use::Nothing => Ok(stuck(st)),
        Use::Number(_) => Ok(stuck(st)),
        Use::Slot(_) => Ok(stuck(st)),
        Use::Target(_) => Ok(stuck(st)),
        Use::Targets(_) => Ok(stuck(st)),
        Use::Text(_) => Ok(stuck(st)),
    }
}
