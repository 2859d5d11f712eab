//! The steps from an instruction.

ghost use Rattle.std.specs.Prelude.{◌≡◌, [], ◌∷◌, ◌++◌, IfOk, OnOk};
ghost use Rattle.rules.specs.flow_rules.Steps.{offsets, place_in, next_to, emptied_to, branch_steps, leave_steps, end_steps, next_step, own_steps, way_into, handler_steps, steps_of};
ghost use Rattle.value_flow.specs.body_graph.Places.{ArePlaces};

use crate::body_graph::blocks::{ends_at, in_try, innermost, leaves_to};
use crate::body_graph::places::Places;
use il_base::{Form, Handler, Instr, NoMemory, Operand, Seq};
use rules::flow_rules::{Step, Way, clause_kind};
use std::alloc::Global;

/// A code with its clauses, and its instructions by their offsets.
#[derive(Clone, Copy)]
pub(crate) struct Code<'a> {
    pub(crate) code: &'a [Instr],
    pub(crate) handlers: &'a [Handler],
    pub(crate) places: &'a Places,
}

/// The place of the instruction at an offset.
fn place_in(c: &Code<'_>, offset: u32) -> Result<u32, NoMemory>
    requires { ArePlaces (offsets c.now.code.now) c.now.places.now }
    ensures { IfOk result (λ place. place ≡ place_in (offsets c.now.code.now) offset) }
{
    match u32::try_from(c.places.get(offset)) {
        Err(_) => Err(NoMemory),
        Ok(place) => Ok(place),
    }
}

/// Puts a step to each of these offsets, with what the instruction leaves on the stack.
fn put_next_to(c: &Code<'_>, to: &[u32], out: &mut Seq<Step>) -> Result<(), NoMemory>
    requires { ArePlaces (offsets c.now.code.now) c.now.places.now }
    ensures { OnOk result (out.new ≡ out.old ++ next_to (offsets c.now.code.now) to.now) }
{
    for offset in to {
        let to = place_in(c, *offset)?;
        out.push(Step { to, way: Way::Next })?;
    }
    Ok(())
}

/// Puts a step to each of these offsets, with an empty stack.
fn put_emptied_to(c: &Code<'_>, to: &[u32], out: &mut Seq<Step>) -> Result<(), NoMemory>
    requires { ArePlaces (offsets c.now.code.now) c.now.places.now }
    ensures { OnOk result (out.new ≡ out.old ++ emptied_to (offsets c.now.code.now) to.now) }
{
    for offset in to {
        let to = place_in(c, *offset)?;
        out.push(Step {
            to,
            way: Way::Emptied,
        })?;
    }
    Ok(())
}

/// Puts the steps of a branch.
fn put_branches(c: &Code<'_>, operand: &Operand, out: &mut Seq<Step>) -> Result<(), NoMemory>
    requires { ArePlaces (offsets c.now.code.now) c.now.places.now }
    ensures { OnOk result (out.new ≡ out.old ++ branch_steps (offsets c.now.code.now) operand.now) }
{
    match operand {
        Operand::None => Ok(()),
        Operand::Number(_) => Ok(()),
        Operand::Slot(_) => Ok(()),
        Operand::Token(_) => Ok(()),
        Operand::Target(to) => put_next_to(c, &[*to], out),
        Operand::Targets(to) => put_next_to(c, to.as_slice(), out),
    }
}

fn branch(alloc: Global, c: &Code<'_>, operand: &Operand) -> Result<Seq<Step>, NoMemory>
    requires { ArePlaces (offsets c.now.code.now) c.now.places.now }
    ensures { IfOk result (λ steps. steps ≡ branch_steps (offsets c.now.code.now) operand.now) }
{
    let mut steps = Seq::new(alloc);
    put_branches(c, operand, &mut steps)?;
    Ok(steps)
}

/// The step to the next instruction.
fn next_only(alloc: Global, k: u32) -> Result<Seq<Step>, NoMemory>
    ensures { IfOk result (λ steps. steps ≡ next_step k ∷ []) }
{
    let Some(to) = k.checked_add(1) else {
        return Err(NoMemory);
    };
    let mut steps = Seq::new(alloc);
    steps.push(Step { to, way: Way::Next })?;
    Ok(steps)
}

fn next_or_branch(
    alloc: Global,
    c: &Code<'_>,
    k: u32,
    operand: &Operand,
) -> Result<Seq<Step>, NoMemory>
    requires { ArePlaces (offsets c.now.code.now) c.now.places.now }
    ensures { IfOk result (λ steps. steps ≡ next_step k ∷ branch_steps (offsets c.now.code.now) operand.now) }
{
    let mut steps = next_only(alloc, k)?;
    put_branches(c, operand, &mut steps)?;
    Ok(steps)
}

fn leave(alloc: Global, c: &Code<'_>, at: u32, operand: &Operand) -> Result<Seq<Step>, NoMemory>
    requires { ArePlaces (offsets c.now.code.now) c.now.places.now }
    ensures { IfOk result (λ steps. steps ≡ leave_steps (offsets c.now.code.now) c.now.handlers.now at operand.now) }
{
    let mut steps = Seq::new(alloc);
    match operand {
        Operand::None => Ok(steps),
        Operand::Number(_) => Ok(steps),
        Operand::Slot(_) => Ok(steps),
        Operand::Token(_) => Ok(steps),
        Operand::Target(to) => {
            let to = place_in(c, leaves_to(c.handlers, at, *to))?;
            steps.push(Step {
                to,
                way: Way::Emptied,
            })?;
            Ok(steps)
        }
        Operand::Targets(_) => Ok(steps),
    }
}

fn end_finally(alloc: Global, c: &Code<'_>, at: u32) -> Result<Seq<Step>, NoMemory>
    requires { ArePlaces (offsets c.now.code.now) c.now.places.now }
    ensures { IfOk result (λ steps. steps ≡ end_steps (offsets c.now.code.now) c.now.code.now c.now.handlers.now at) }
{
    let inner = innermost(c.handlers, at);
    let to = ends_at(alloc, c.code, c.handlers, inner)?;
    let mut steps = Seq::new(alloc);
    put_emptied_to(c, to.as_slice(), &mut steps)?;
    Ok(steps)
}

/// Where control goes from an instruction, exceptions aside.
#[tactic(auto, unfolding(rules::specs::flow_rules::Steps::own_steps))]
fn own_steps(alloc: Global, c: &Code<'_>, k: u32, i: &Instr) -> Result<Seq<Step>, NoMemory>
    requires { ArePlaces (offsets c.now.code.now) c.now.places.now }
    ensures { IfOk result (λ steps. steps ≡ own_steps (offsets c.now.code.now) c.now.code.now c.now.handlers.now k i.now i.now.form) }
{
    match i.form {
        Form::Br => branch(alloc, c, &i.operand),
        Form::BrIf => next_or_branch(alloc, c, k, &i.operand),
        Form::Switch => next_or_branch(alloc, c, k, &i.operand),
        Form::Leave => leave(alloc, c, i.at, &i.operand),
        Form::EndFinally => end_finally(alloc, c, i.at),
        Form::Ret => Ok(Seq::new(alloc)),
        Form::Throw => Ok(Seq::new(alloc)),
        Form::Nop
        | Form::LdArg
        | Form::LdArgA
        | Form::StArg
        | Form::LdLoc
        | Form::LdLocA
        | Form::StLoc
        | Form::LdNull
        | Form::LdI4
        | Form::LdI8
        | Form::LdStr
        | Form::Dup
        | Form::Pop
        | Form::Binary
        | Form::Unary
        | Form::Convert
        | Form::Call
        | Form::NewObj
        | Form::Cast
        | Form::Box
        | Form::Unbox
        | Form::Field
        | Form::NewArr
        | Form::Elem
        | Form::Indirect
        | Form::LdToken
        | Form::Prefix => next_only(alloc, k),
    }
}

fn way_into(h: Handler) -> Way
    ensures { result ≡ way_into h }
{
    if h.kind == clause_kind::CATCH {
        Way::Caught
    } else {
        Way::Unwound
    }
}

/// Puts the steps to the handlers of the try blocks that an offset lies in.
fn put_handlers(c: &Code<'_>, at: u32, out: &mut Seq<Step>) -> Result<(), NoMemory>
    requires { ArePlaces (offsets c.now.code.now) c.now.places.now }
    ensures { OnOk result (out.new ≡ out.old ++ handler_steps (offsets c.now.code.now) c.now.handlers.now at) }
{
    for h in c.handlers {
        if in_try(*h, at) {
            let to = place_in(c, h.at)?;
            out.push(Step {
                to,
                way: way_into(*h),
            })?;
        }
    }
    Ok(())
}

/// The steps from an instruction.
pub(crate) fn steps_of(
    alloc: Global,
    c: &Code<'_>,
    k: u32,
    i: &Instr,
) -> Result<Seq<Step>, NoMemory>
    requires { ArePlaces (offsets c.now.code.now) c.now.places.now }
    ensures { IfOk result (λ steps. steps ≡ steps_of (offsets c.now.code.now) c.now.code.now c.now.handlers.now k i.now) }
{
    let mut steps = own_steps(alloc, c, k, i)?;
    put_handlers(c, i.at, &mut steps)?;
    Ok(steps)
}
