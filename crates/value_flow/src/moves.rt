//! What each instruction of a method does with sources.

ghost use Rattle.std.specs.Prelude.{◌≡◌, IfOk};
ghost use Rattle.std.specs.Option.{option_copied, option_and_then};
ghost use Rattle.rules.specs.flow_rules.Moves.{args_in, arg_slot, local_slot, load, store, token_in, text_move, type_move, handle_move, field_move, returned, call_move, used_move, if_any, named_use, named_field, token_move, move_by, move_of};
ghost use Rattle.rules.specs.flow_rules.Sources.{text_at};
ghost use Rattle.value_flow.specs.body_graph.Methods.{setting_in, IsHere};
ghost use Rattle.value_flow.specs.Doings.{move_in};

use crate::body_graph::counts::plain_counts;
use crate::body_graph::methods::Method;
use crate::body_graph::operands::{
    field_named, is_field_token, is_method_token, method_named, type_named,
};
use crate::body_graph::signatures::called_in;
use crate::doing::Doing;
use crate::handles::handle_of;
use crate::members::is_type_member;
use crate::texts::text_at;
use il_base::world_model::{FieldUse, MethodUse, TypeExpr, UserText};
use il_base::{Form, Instr, MethodId, NoMemory, Operand, Seq, TypeId, opcode};
use rules::flow_rules::{Called, Source, Turning};
use std::alloc::Global;

/// How many arguments a method has, `this` among them.
pub(crate) fn args_in(m: &Method<'_>) -> Result<u32, NoMemory>
    ensures { IfOk result (λ n. n ≡ args_in (setting_in m.now)) }
{
    let Ok(params) = u32::try_from(m.own.params) else {
        return Err(NoMemory);
    };
    if !m.own.this {
        return Ok(params);
    }
    match params.checked_add(1) {
        None => Err(NoMemory),
        Some(args) => Ok(args),
    }
}

/// The slot of an argument.
pub(crate) fn arg_slot(m: &Method<'_>, operand: &Operand) -> Result<Option<u32>, NoMemory>
    ensures { IfOk result (λ slot. slot ≡ arg_slot (setting_in m.now) operand.now) }
{
    let args = args_in(m)?;
    match operand {
        Operand::None => Ok(None),
        Operand::Number(_) => Ok(None),
        Operand::Slot(n) => { if *n < args { Ok(Some(*n)) } else { Ok(None) } }
        Operand::Token(_) => Ok(None),
        Operand::Target(_) => Ok(None),
        Operand::Targets(_) => Ok(None),
    }
}

/// The slot of a local.
pub(crate) fn local_slot(m: &Method<'_>, operand: &Operand) -> Result<Option<u32>, NoMemory>
    ensures { IfOk result (λ slot. slot ≡ local_slot (setting_in m.now) operand.now) }
{
    let args = args_in(m)?;
    match operand {
        Operand::None => Ok(None),
        Operand::Number(_) => Ok(None),
        Operand::Slot(n) => {
            if (*n as usize) < m.locals {
                match args.checked_add(*n) {
                    None => Err(NoMemory),
                    Some(slot) => Ok(Some(slot)),
                }
            } else {
                Ok(None)
            }
        }
        Operand::Token(_) => Ok(None),
        Operand::Target(_) => Ok(None),
        Operand::Targets(_) => Ok(None),
    }
}

fn load(slot: Option<u32>) -> Doing
    ensures { move_in result ≡ load slot }
{
    match slot {
        None => Doing::Make(Source::Opaque),
        Some(n) => Doing::Load(n),
    }
}

fn store(slot: Option<u32>) -> Doing
    ensures { move_in result ≡ store slot }
{
    match slot {
        None => Doing::Nothing,
        Some(n) => Doing::Store(n),
    }
}

fn token_in(operand: &Operand) -> Option<u32>
    ensures { result ≡ token_in operand.now }
{
    match operand {
        Operand::None => None,
        Operand::Number(_) => None,
        Operand::Slot(_) => None,
        Operand::Token(token) => Some(*token),
        Operand::Target(_) => None,
        Operand::Targets(_) => None,
    }
}

fn text_move(alloc: Global, text: Option<&UserText>) -> Result<Doing, NoMemory>
    ensures { IfOk result (λ d. move_in d ≡ text_move (option_copied text.entry)) }
{
    match text {
        None => Ok(Doing::Make(Source::Opaque)),
        Some(t) => {
            let text = Seq::from_slice(alloc, t.text.as_slice())?;
            Ok(Doing::Make(Source::KnownText(text)))
        }
    }
}

fn text_of(alloc: Global, m: &Method<'_>, operand: &Operand) -> Result<Doing, NoMemory>
    ensures { IfOk result (λ d. move_in d ≡ text_move (option_and_then (text_at m.now.rec.now) (token_in operand.now))) }
{
    match token_in(operand) {
        None => text_move(alloc, None),
        Some(token) => text_move(alloc, text_at(m.rec, token)),
    }
}

fn type_move(m: &Method<'_>, owner: Option<TypeId>, e: Option<&TypeExpr>) -> Result<Doing, NoMemory>
    ensures { IfOk result (λ d. move_in d ≡ type_move m.now.world.now.recs owner (option_copied e.entry)) }
{
    match e {
        None => Ok(Doing::Make(Source::Opaque)),
        Some(e) => match handle_of(m.world.recs.as_slice(), owner, e) {
            Err(error) => Err(error),
            Ok(s) => Ok(Doing::Make(s)),
        },
    }
}

fn handle_move(m: &Method<'_>, owner: Option<TypeId>, token: u32) -> Result<Doing, NoMemory>
    requires { IsHere m.now }
    ensures { IfOk result (λ d. move_in d ≡ handle_move m.now.world.now.recs m.now.asm m.now.rec.now owner token) }
{
    if is_field_token(m.rec, token) {
        return Ok(Doing::Make(Source::Opaque));
    }
    if is_method_token(token) {
        return Ok(Doing::Make(Source::Opaque));
    }
    type_move(m, owner, type_named(m, token))
}

fn field_move(n: u16, u: Option<&FieldUse>) -> Doing
    ensures { move_in result ≡ field_move n (option_copied u.entry) }
{
    let Some(u) = u else {
        return Doing::Make(Source::Opaque);
    };
    if n == opcode::LDFLD || n == opcode::LDSFLD {
        return Doing::Make(Source::Field(u.field));
    }
    if n == opcode::STFLD || n == opcode::STSFLD {
        return Doing::Nothing;
    }
    Doing::Make(Source::Opaque)
}

fn returned(m: MethodId, called: Option<Called>) -> Doing
    ensures { move_in result ≡ returned m called }
{
    match called {
        None => Doing::Nothing,
        Some(c) => {
            if c.returns {
                Doing::Make(Source::Return(m))
            } else {
                Doing::Nothing
            }
        }
    }
}

fn call_move(m: &Method<'_>, n: u16, u: &MethodUse) -> Result<Doing, NoMemory>
    requires { IsHere m.now }
    ensures { IfOk result (λ d. move_in d ≡ call_move m.now.world.now.recs n u.now) }
{
    let recs = m.world.recs.as_slice();
    let handle = is_type_member(recs, u.method, b"GetTypeFromHandle")?;
    if n == opcode::CALL && handle {
        return Ok(Doing::Turn(Turning::FromHandle));
    }
    let text = is_type_member(recs, u.method, b"GetType")?;
    if n == opcode::CALL && text {
        return Ok(Doing::Turn(Turning::FromText));
    }
    match called_in(m.world, u) {
        Err(error) => Err(error),
        Ok(called) => Ok(returned(u.method, called)),
    }
}

/// The method that the operand of a call names.
pub(crate) fn named_use<'w>(m: &Method<'w>, operand: &Operand) -> Option<&'w MethodUse>
    requires { IsHere m.now }
    ensures { option_copied result ≡ named_use m.now.world.now.recs (setting_in m.now) operand.now }
{
    match token_in(operand) {
        None => None,
        Some(token) => method_named(m, token),
    }
}

fn named_field<'w>(m: &Method<'w>, operand: &Operand) -> Option<&'w FieldUse>
    requires { IsHere m.now }
    ensures { option_copied result ≡ named_field m.now.world.now.recs (setting_in m.now) operand.now }
{
    match token_in(operand) {
        None => None,
        Some(token) => field_named(m, token),
    }
}

fn used_move(m: &Method<'_>, n: u16, u: Option<&MethodUse>) -> Result<Doing, NoMemory>
    requires { IsHere m.now }
    ensures { IfOk result (λ d. move_in d ≡ used_move m.now.world.now.recs n (option_copied u.entry)) }
{
    match u {
        None => Ok(Doing::Nothing),
        Some(u) => call_move(m, n, u),
    }
}

fn token_move(m: &Method<'_>, owner: Option<TypeId>, token: Option<u32>) -> Result<Doing, NoMemory>
    requires { IsHere m.now }
    ensures { IfOk result (λ d. move_in d ≡ token_move (handle_move m.now.world.now.recs m.now.asm m.now.rec.now owner) token) }
{
    match token {
        None => Ok(Doing::Make(Source::Opaque)),
        Some(token) => handle_move(m, owner, token),
    }
}

fn if_any(pushes: u32) -> Doing
    ensures { move_in result ≡ if_any pushes }
{
    if 0 < pushes {
        Doing::Make(Source::Opaque)
    } else {
        Doing::Nothing
    }
}

fn load_arg(m: &Method<'_>, operand: &Operand) -> Result<Doing, NoMemory>
    ensures { IfOk result (λ d. move_in d ≡ load (arg_slot (setting_in m.now) operand.now)) }
{
    let slot = arg_slot(m, operand)?;
    Ok(load(slot))
}

fn store_arg(m: &Method<'_>, operand: &Operand) -> Result<Doing, NoMemory>
    ensures { IfOk result (λ d. move_in d ≡ store (arg_slot (setting_in m.now) operand.now)) }
{
    let slot = arg_slot(m, operand)?;
    Ok(store(slot))
}

fn load_local(m: &Method<'_>, operand: &Operand) -> Result<Doing, NoMemory>
    ensures { IfOk result (λ d. move_in d ≡ load (local_slot (setting_in m.now) operand.now)) }
{
    let slot = local_slot(m, operand)?;
    Ok(load(slot))
}

fn store_local(m: &Method<'_>, operand: &Operand) -> Result<Doing, NoMemory>
    ensures { IfOk result (λ d. move_in d ≡ store (local_slot (setting_in m.now) operand.now)) }
{
    let slot = local_slot(m, operand)?;
    Ok(store(slot))
}

/// What an instruction does in a method of the type `owner`.
#[tactic(auto, unfolding(rules::specs::flow_rules::Moves::move_by))]
fn doing_by(
    alloc: Global,
    m: &Method<'_>,
    owner: Option<TypeId>,
    form: Form,
    n: u16,
    operand: &Operand,
) -> Result<Doing, NoMemory>
    requires { IsHere m.now }
    ensures { IfOk result (λ d. move_in d ≡ move_by m.now.world.now.recs (setting_in m.now) owner form n operand.now) }
{
    match form {
        Form::LdArg => load_arg(m, operand),
        Form::StArg => store_arg(m, operand),
        Form::LdLoc => load_local(m, operand),
        Form::StLoc => store_local(m, operand),
        Form::LdNull => Ok(Doing::Make(Source::Null)),
        Form::LdStr => text_of(alloc, m, operand),
        Form::Dup => Ok(Doing::Twice),
        Form::Cast => Ok(Doing::Back),
        Form::Call => used_move(m, n, named_use(m, operand)),
        Form::NewObj => Ok(Doing::Make(Source::Opaque)),
        Form::Field => Ok(field_move(n, named_field(m, operand))),
        Form::LdToken => token_move(m, owner, token_in(operand)),
        Form::Nop
        | Form::LdArgA
        | Form::LdLocA
        | Form::LdI4
        | Form::LdI8
        | Form::Pop
        | Form::Br
        | Form::BrIf
        | Form::Switch
        | Form::Leave
        | Form::EndFinally
        | Form::Binary
        | Form::Unary
        | Form::Convert
        | Form::Ret
        | Form::Throw
        | Form::Box
        | Form::Unbox
        | Form::NewArr
        | Form::Elem
        | Form::Indirect
        | Form::Prefix => Ok(if_any(plain_counts(m.own.returns, form, n).1)),
    }
}

/// What an instruction of a method of the type `owner` does with sources.
pub(crate) fn doing_of(
    alloc: Global,
    m: &Method<'_>,
    owner: Option<TypeId>,
    i: &Instr,
) -> Result<Doing, NoMemory>
    requires { IsHere m.now }
    ensures { IfOk result (λ d. move_in d ≡ move_of m.now.world.now.recs (setting_in m.now) owner i.now) }
{
    doing_by(alloc, m, owner, i.form, i.opcode, &i.operand)
}
