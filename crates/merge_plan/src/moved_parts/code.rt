//! Bodies with new tokens (II.25.4): opcodes, offsets and the form of the header stay.

ghost use Rattle.std.specs.Prelude.{◌≡◌, map, IfOk};
ghost use Rattle.std.specs.Option.{option_map};
ghost use Rattle.il_base.specs.world_model.Worlds.{known_map};
ghost use Rattle.merge_plan.specs.moved_parts.Moves.{body_by, handler_by, instr_by, operand_by};

use crate::moved_parts::tokens::NewTokens;
use il_base::world_model::{AsmRec, Known};
use il_base::{Body, Form, Handler, Instr, NoMemory, Operand, Seq};
use std::alloc::Global;

/// An operand with a new token.
fn moved_operand(
    alloc: Global,
    rec: &AsmRec,
    tokens: &NewTokens,
    form: Form,
    operand: &Operand,
) -> Result<Operand, NoMemory>
    ensures { IfOk result (λ o. o ≡ operand_by tokens.now rec.now form operand.now) }
{
    match operand {
        Operand::None => Ok(Operand::None),
        Operand::Number(n) => Ok(Operand::Number(*n)),
        Operand::Slot(k) => Ok(Operand::Slot(*k)),
        Operand::Token(token) => Ok(Operand::Token(tokens.of_form(rec, form, *token))),
        Operand::Target(to) => Ok(Operand::Target(*to)),
        Operand::Targets(targets) => {
            let copy = Seq::from_slice(alloc, targets.as_slice())?;
            Ok(Operand::Targets(copy))
        }
    }
}

#[tactic(auto, unfolding(crate::specs::moved_parts::Moves::instr_by))]
fn moved_instr(
    alloc: Global,
    rec: &AsmRec,
    tokens: &NewTokens,
    instr: &Instr,
) -> Result<Instr, NoMemory>
    ensures { IfOk result (λ i. i ≡ instr_by tokens.now rec.now instr.now) }
{
    let operand = moved_operand(alloc, rec, tokens, instr.form, &instr.operand)?;
    Ok(Instr {
        at: instr.at,
        form: instr.form,
        opcode: instr.opcode,
        operand,
    })
}

fn moved_code(
    alloc: Global,
    rec: &AsmRec,
    tokens: &NewTokens,
    code: &[Instr],
) -> Result<Seq<Instr>, NoMemory>
    ensures { IfOk result (λ s. s ≡ map (instr_by tokens.now rec.now) code.now) }
{
    let mut moved = Seq::new(alloc);
    for one in code {
        let instr = moved_instr(alloc, rec, tokens, one)?;
        moved.push(instr)?;
    }
    Ok(moved)
}

/// A handler with a new token. Only a catch clause names a type; in any other clause the cell stays.
fn moved_handler(tokens: &NewTokens, handler: Handler) -> Handler
    ensures { result ≡ handler_by tokens.now handler }
{
    if handler.kind != 0 {
        return handler;
    }
    Handler {
        kind: handler.kind,
        try_at: handler.try_at,
        try_len: handler.try_len,
        at: handler.at,
        len: handler.len,
        token: tokens.types.get(handler.token),
    }
}

fn moved_handlers(
    alloc: Global,
    tokens: &NewTokens,
    handlers: &[Handler],
) -> Result<Seq<Handler>, NoMemory>
    ensures { IfOk result (λ s. s ≡ map (handler_by tokens.now) handlers.now) }
{
    let mut moved = Seq::new(alloc);
    for one in handlers {
        moved.push(moved_handler(tokens, *one))?;
    }
    Ok(moved)
}

/// A body of an assembly with new tokens.
#[tactic(auto, unfolding(crate::specs::moved_parts::Moves::body_by))]
pub fn moved_body(
    alloc: Global,
    rec: &AsmRec,
    tokens: &NewTokens,
    body: &Body,
) -> Result<Body, NoMemory>
    ensures { IfOk result (λ b. b ≡ body_by tokens.now rec.now body.now) }
{
    let code = moved_code(alloc, rec, tokens, body.code.as_slice())?;
    let handlers = moved_handlers(alloc, tokens, body.handlers.as_slice())?;
    Ok(Body {
        tiny: body.tiny,
        init: body.init,
        max_stack: body.max_stack,
        locals: tokens.locals.get(body.locals),
        code,
        fat_handlers: body.fat_handlers,
        handlers,
    })
}

/// A method's body with new tokens; a bad one stays.
pub(crate) fn moved_known_body(
    alloc: Global,
    rec: &AsmRec,
    tokens: &NewTokens,
    body: &Option<Known<Body>>,
) -> Result<Option<Known<Body>>, NoMemory>
    ensures { IfOk result (λ b. b ≡ option_map (known_map (body_by tokens.now rec.now)) body.now) }
{
    match body {
        None => Ok(None),
        Some(Known::Good(body)) => {
            let moved = moved_body(alloc, rec, tokens, body)?;
            Ok(Some(Known::Good(moved)))
        }
        Some(Known::Bad(why)) => Ok(Some(Known::Bad(*why))),
    }
}
