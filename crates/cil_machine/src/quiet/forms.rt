//! Simple instructions by their forms.

ghost use Rattle.std.specs.Prelude.{◌≡◌, IfOk};
ghost use Rattle.rules.specs.step_rules.Step.{execute};
ghost use Rattle.machine_words.specs.cil_words.Steps.{here_by};
ghost use Rattle.cil_machine.specs.Quiet.{QuietBy};

use crate::quiet::branches::{branch, branch_if};
use crate::quiet::numbers::{binary, convert};
use crate::quiet::slots::{
    duplicate, load_arg, load_int32, load_int64, load_local, load_null, nop, pop,
};
use crate::quiet::stores::store_local;
use il_base::cil_values::{Instruction, State};
use il_base::{Form, NoMemory};
use machine_words::cil_queries::Answers;
use machine_words::cil_words::Body;
use std::alloc::Global;

/// A simple instruction. False where it isn't one that is done here; the state is then as it was.
#[inline(always)]
#[tactic(auto, unfolding(rules::specs::step_rules::Step::execute, rules::specs::step_rules::Step::effect))]
pub(crate) fn quiet<Q: Answers>(
    alloc: Global,
    q: &Q,
    body: &Body,
    i: &Instruction,
    st: &mut State,
) -> Result<bool, NoMemory>
    ensures { IfOk result (λ went. QuietBy went (execute (Q.queries q.now) (here_by body.now st.old) i.now st.old) st.old st.new) }
{
    match i.form {
        Form::Nop => Ok(nop(body, i, st)),
        Form::LdArg => Ok(load_arg(body, i, st)?),
        Form::LdLoc => Ok(load_local(body, i, st)?),
        Form::StLoc => Ok(store_local(alloc, q, body, i, st)?),
        Form::LdNull => Ok(load_null(body, i, st)?),
        Form::LdI4 => Ok(load_int32(body, i, st)?),
        Form::LdI8 => Ok(load_int64(body, i, st)?),
        Form::Dup => Ok(duplicate(body, i, st)?),
        Form::Pop => Ok(pop(body, i, st)),
        Form::Br => Ok(branch(body, i, st)),
        Form::BrIf => Ok(branch_if(body, i, st)),
        Form::Binary => Ok(binary(body, i, st)?),
        Form::Convert => Ok(convert(body, i, st)?),
        _ => Ok(false),
    }
}
