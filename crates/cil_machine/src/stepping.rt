//! A step.

ghost use Rattle.std.specs.Prelude.{◌≡◌, [], IfOk};
ghost use Rattle.rules.specs.step_rules.Step.{execute, step};
ghost use Rattle.machine_words.specs.cil_words.Steps.{here_by, next_of};

use cil_indirect::indirect;
use il_base::cil_values::{Instruction, State};
use il_base::{Form, NoMemory};
use machine_calls::cil_calls::{call, prefix};
use machine_calls::cil_making::{load_string, new_object};
use machine_calls::cil_returns::{return_form, running};
use machine_frames::cil_throws::{end_finally, leave, throw_form};
use machine_numbers::cil_branches::{branch, branch_if, switch};
use machine_numbers::cil_numbers::{binary, convert, unary};
use machine_numbers::cil_slots::{
    address_arg, address_local, duplicate, load_arg, load_int32, load_int64, load_local, load_null,
    nop, pop, store_arg, store_local,
};
use machine_objects::cil_arrays::{element_form, new_array};
use machine_objects::cil_fields::field_form;
use machine_objects::cil_types::{box_value, cast, load_token, unbox};
use machine_words::cil_queries::Answers;
use machine_words::cil_words::{Body, StepOut, stuck};
use std::alloc::Global;

/// What an instruction does.
#[tactic(auto, unfolding(rules::specs::step_rules::Step::execute, rules::specs::step_rules::Step::effect))]
fn execute<Q: Answers>(
    alloc: Global,
    q: &Q,
    body: &Body,
    i: &Instruction,
    st: &mut State,
    printed: &mut Vec<u8>,
) -> Result<StepOut, NoMemory>
    requires { printed.old.items ≡ [] }
    ensures { IfOk result (λ out. next_of out st.new printed.new.items ≡ execute (Q.queries q.now) (here_by body.now st.old) i.now st.old) }
{
    match i.form {
        Form::Nop => Ok(nop(body, i, st)?),
        Form::LdArg => Ok(load_arg(alloc, body, i, st)?),
        Form::LdArgA => address_arg(alloc, q, body, i, st),
        Form::StArg => store_arg(alloc, q, body, i, st),
        Form::LdLoc => Ok(load_local(alloc, body, i, st)?),
        Form::LdLocA => address_local(alloc, q, body, i, st),
        Form::StLoc => store_local(alloc, q, body, i, st),
        Form::LdNull => Ok(load_null(body, i, st)?),
        Form::LdI4 => Ok(load_int32(body, i, st)?),
        Form::LdI8 => Ok(load_int64(body, i, st)?),
        Form::LdStr => load_string(alloc, q, body, i, st),
        Form::Dup => Ok(duplicate(alloc, body, i, st)?),
        Form::Pop => Ok(pop(body, i, st)?),
        Form::Br => Ok(branch(body, i, st)?),
        Form::BrIf => Ok(branch_if(body, i, st)?),
        Form::Switch => Ok(switch(body, i, st)?),
        Form::Leave => leave(alloc, q, body, i, st),
        Form::EndFinally => end_finally(alloc, q, body, i, st),
        Form::Binary => binary(alloc, q, body, i, st),
        Form::Unary => Ok(unary(body, i, st)?),
        Form::Convert => convert(alloc, q, body, i, st),
        Form::Call => call(alloc, q, body, i, st, printed),
        Form::Ret => return_form(alloc, q, body, i, st, printed),
        Form::NewObj => new_object(alloc, q, body, i, st, printed),
        Form::Throw => throw_form(alloc, q, body, i, st),
        Form::Cast => cast(alloc, q, body, i, st),
        Form::Box => box_value(alloc, q, body, i, st),
        Form::Unbox => unbox(alloc, q, body, i, st),
        Form::Field => field_form(alloc, q, body, i, st),
        Form::NewArr => new_array(alloc, q, body, i, st),
        Form::Elem => element_form(alloc, q, body, i, st),
        Form::Indirect => indirect(alloc, q, body, i, st),
        Form::LdToken => load_token(alloc, q, body, i, st),
        Form::Prefix => prefix(alloc, q, body, i, st),
    }
}

/// A step of the machine: the instruction at the top frame's offset (III.1.3). An offset where none begins is stuck. What it
/// prints is put into `printed`, in bytes.
#[tactic(auto, using(crate::proofs::Steps::step_nowhere, crate::proofs::Steps::step_at))]
pub fn step<Q: Answers>(
    alloc: Global,
    q: &Q,
    st: &mut State,
    printed: &mut Vec<u8>,
) -> Result<StepOut, NoMemory>
    requires { printed.old.items ≡ [] }
    ensures { IfOk result (λ out. next_of out st.new printed.new.items ≡ step (Q.queries q.now) st.old) }
{
    let Some(current) = running(q, &st.top) else {
        return Ok(stuck(st));
    };
    execute(alloc, q, &current.body, current.instruction, st, printed)
}
