//! The bodies, with the offsets of their instructions as a file has them.

use crate::build::{
    CLASS_C, EXCEPTION, FROM_HANDLE, GET_METHOD, MISSING, OBJECT, ONE_LOCAL, TEXT_A, UNREAD,
    push_method,
};
use il_base::world_model::AsmRec;
use il_base::{Body, Form, Handler, Instr, NoMemory, Operand, Seq, opcode};
use rules::flow_rules::clause_kind;
use std::alloc::Global;

fn put(
    code: &mut Seq<Instr>,
    at: u32,
    form: Form,
    opcode: u16,
    operand: Operand,
) -> Result<(), NoMemory> {
    code.push(Instr {
        at,
        form,
        opcode,
        operand,
    })
}

fn plain(code: &mut Seq<Instr>, at: u32, form: Form, opcode: u16) -> Result<(), NoMemory> {
    put(code, at, form, opcode, Operand::None)
}

fn slot(code: &mut Seq<Instr>, at: u32, form: Form, opcode: u16, n: u32) -> Result<(), NoMemory> {
    put(code, at, form, opcode, Operand::Slot(n))
}

fn token(code: &mut Seq<Instr>, at: u32, form: Form, opcode: u16, n: u32) -> Result<(), NoMemory> {
    put(code, at, form, opcode, Operand::Token(n))
}

fn branch(
    code: &mut Seq<Instr>,
    at: u32,
    form: Form,
    opcode: u16,
    to: u32,
) -> Result<(), NoMemory> {
    put(code, at, form, opcode, Operand::Target(to))
}

fn ldstr(code: &mut Seq<Instr>, at: u32) -> Result<(), NoMemory> {
    token(code, at, Form::LdStr, opcode::LDSTR, TEXT_A)
}

fn ldtoken(code: &mut Seq<Instr>, at: u32) -> Result<(), NoMemory> {
    token(code, at, Form::LdToken, opcode::LDTOKEN, CLASS_C)
}

fn ldnull(code: &mut Seq<Instr>, at: u32) -> Result<(), NoMemory> {
    plain(code, at, Form::LdNull, opcode::LDNULL)
}

fn ldarg(code: &mut Seq<Instr>, at: u32) -> Result<(), NoMemory> {
    slot(code, at, Form::LdArg, opcode::LDARG_0, 0)
}

fn ldloc(code: &mut Seq<Instr>, at: u32) -> Result<(), NoMemory> {
    slot(code, at, Form::LdLoc, opcode::LDLOC_0, 0)
}

fn stloc(code: &mut Seq<Instr>, at: u32) -> Result<(), NoMemory> {
    slot(code, at, Form::StLoc, opcode::STLOC_0, 0)
}

fn pop(code: &mut Seq<Instr>, at: u32) -> Result<(), NoMemory> {
    plain(code, at, Form::Pop, opcode::POP)
}

fn nop(code: &mut Seq<Instr>, at: u32) -> Result<(), NoMemory> {
    plain(code, at, Form::Nop, opcode::NOP)
}

fn ret(code: &mut Seq<Instr>, at: u32) -> Result<(), NoMemory> {
    plain(code, at, Form::Ret, opcode::RET)
}

fn leave(code: &mut Seq<Instr>, at: u32, to: u32) -> Result<(), NoMemory> {
    branch(code, at, Form::Leave, opcode::LEAVE_S, to)
}

fn throw(code: &mut Seq<Instr>, at: u32) -> Result<(), NoMemory> {
    plain(code, at, Form::Throw, opcode::THROW)
}

/// `t = null; try { t = typeof(C); throw new Exception(); } catch { t.GetMethod("A"); }`
fn caught(code: &mut Seq<Instr>) -> Result<(), NoMemory> {
    ldnull(code, 0)?;
    stloc(code, 1)?;
    ldtoken(code, 2)?;
    token(code, 7, Form::Call, opcode::CALL, FROM_HANDLE)?;
    stloc(code, 12)?;
    token(code, 13, Form::NewObj, opcode::NEWOBJ, EXCEPTION)?;
    throw(code, 18)?;
    pop(code, 19)?;
    used(code)
}

/// The end of its handler.
fn used(code: &mut Seq<Instr>) -> Result<(), NoMemory> {
    ldloc(code, 20)?;
    ldstr(code, 21)?;
    token(code, 26, Form::Call, opcode::CALLVIRT, GET_METHOD)?;
    pop(code, 31)?;
    leave(code, 32, 34)?;
    ret(code, 34)
}

/// `if (p == null) p = null; throw p;`, and a `nop` after it
fn branches(code: &mut Seq<Instr>) -> Result<(), NoMemory> {
    ldarg(code, 0)?;
    branch(code, 1, Form::BrIf, opcode::BRTRUE_S, 6)?;
    ldnull(code, 3)?;
    slot(code, 4, Form::StArg, opcode::STARG_S, 0)?;
    ldarg(code, 6)?;
    throw(code, 7)?;
    nop(code, 8)
}

fn targets(code: &mut Seq<Instr>, alloc: Global, at: u32, to: &[u32]) -> Result<(), NoMemory> {
    let to = Seq::from_slice(alloc, to)?;
    put(code, at, Form::Switch, opcode::SWITCH, Operand::Targets(to))
}

/// A `switch` with two targets: each of the three ways puts another value on the stack.
fn switches(code: &mut Seq<Instr>, alloc: Global) -> Result<(), NoMemory> {
    ldarg(code, 0)?;
    targets(code, alloc, 1, &[17, 20])?;
    ldnull(code, 14)?;
    branch(code, 15, Form::Br, opcode::BR_S, 25)?;
    ldarg(code, 17)?;
    branch(code, 18, Form::Br, opcode::BR_S, 25)?;
    ldstr(code, 20)?;
    pop(code, 25)?;
    ret(code, 26)?;
    nop(code, 27)
}

/// `try { if (p == null) { t = "A"; leave 22; } t = the handle of C; leave 24; } finally { }`, with a `nop` at 21 to which nothing
/// goes.
fn left(code: &mut Seq<Instr>) -> Result<(), NoMemory> {
    ldarg(code, 0)?;
    branch(code, 1, Form::BrIf, opcode::BRTRUE_S, 11)?;
    ldstr(code, 3)?;
    stloc(code, 8)?;
    leave(code, 9, 22)?;
    ldtoken(code, 11)?;
    stloc(code, 16)?;
    leave(code, 17, 24)?;
    nop(code, 19)?;
    plain(code, 20, Form::EndFinally, opcode::ENDFINALLY)?;
    nop(code, 21)?;
    nop(code, 22)?;
    ret(code, 23)?;
    ldloc(code, 24)?;
    pop(code, 25)?;
    ret(code, 26)
}

/// `t = the handle of C; the address of t is taken; t is used`
fn taken(code: &mut Seq<Instr>) -> Result<(), NoMemory> {
    ldtoken(code, 0)?;
    stloc(code, 5)?;
    slot(code, 6, Form::LdLocA, opcode::LDLOCA_S, 0)?;
    pop(code, 8)?;
    ldloc(code, 9)?;
    pop(code, 10)?;
    ret(code, 11)
}

/// A call of a method whose parameter is of a type that isn't there, then `ldtoken` of one whose signature has no reading.
fn named(code: &mut Seq<Instr>) -> Result<(), NoMemory> {
    ldarg(code, 0)?;
    token(code, 1, Form::Call, opcode::CALL, MISSING)?;
    ldnull(code, 6)?;
    token(code, 7, Form::LdToken, opcode::LDTOKEN, UNREAD)?;
    pop(code, 12)?;
    pop(code, 13)?;
    ret(code, 14)
}

/// A body with one local.
fn body_of(code: Seq<Instr>, handlers: Seq<Handler>) -> Body {
    Body {
        tiny: false,
        init: true,
        max_stack: 2,
        locals: ONE_LOCAL,
        code,
        fat_handlers: false,
        handlers,
    }
}

/// The catch handler from 19 to 34 of the block from 2 to 19.
const CATCH: Handler = Handler {
    kind: clause_kind::CATCH,
    try_at: 2,
    try_len: 17,
    at: 19,
    len: 15,
    token: OBJECT,
};

/// The finally handler from 19 to 21 of the block from 0 to 19.
const FINALLY: Handler = Handler {
    kind: 2,
    try_at: 0,
    try_len: 19,
    at: 19,
    len: 2,
    token: 0,
};

fn push_caught(rec: &mut AsmRec, alloc: Global) -> Result<(), NoMemory> {
    let mut code = Seq::new(alloc);
    caught(&mut code)?;
    let handlers = Seq::from_slice(alloc, &[CATCH])?;
    push_method(rec, alloc, b"Caught", body_of(code, handlers))
}

fn push_branches(rec: &mut AsmRec, alloc: Global) -> Result<(), NoMemory> {
    let mut code = Seq::new(alloc);
    branches(&mut code)?;
    push_method(rec, alloc, b"Branches", body_of(code, Seq::new(alloc)))
}

fn push_switches(rec: &mut AsmRec, alloc: Global) -> Result<(), NoMemory> {
    let mut code = Seq::new(alloc);
    switches(&mut code, alloc)?;
    push_method(rec, alloc, b"Switches", body_of(code, Seq::new(alloc)))
}

fn push_left(rec: &mut AsmRec, alloc: Global) -> Result<(), NoMemory> {
    let mut code = Seq::new(alloc);
    left(&mut code)?;
    let handlers = Seq::from_slice(alloc, &[FINALLY])?;
    push_method(rec, alloc, b"Left", body_of(code, handlers))
}

fn push_taken(rec: &mut AsmRec, alloc: Global) -> Result<(), NoMemory> {
    let mut code = Seq::new(alloc);
    taken(&mut code)?;
    push_method(rec, alloc, b"Taken", body_of(code, Seq::new(alloc)))
}

fn push_named(rec: &mut AsmRec, alloc: Global) -> Result<(), NoMemory> {
    let mut code = Seq::new(alloc);
    named(&mut code)?;
    push_method(rec, alloc, b"Named", body_of(code, Seq::new(alloc)))
}

/// The methods 0 to 5.
pub fn push_bodies(rec: &mut AsmRec, alloc: Global) -> Result<(), NoMemory> {
    push_caught(rec, alloc)?;
    push_branches(rec, alloc)?;
    push_switches(rec, alloc)?;
    push_left(rec, alloc)?;
    push_taken(rec, alloc)?;
    push_named(rec, alloc)
}
