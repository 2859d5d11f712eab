//! Bodies.

ghost use Rattle.std.specs.Prelude.{◌≡◌, ◌+◌, ◌%◌, length, map, IfOk};
ghost use Rattle.std.specs.Option.{option_copied};
ghost use Rattle.il_base.specs.body_grammar.BodySpelling.{instr_bytes};
ghost use Rattle.mark_parts.specs.mark_tables.Assemblies.{recs_of, place_of, rec_of, IsAssembly};
ghost use Rattle.rules.specs.view_rules.Code.{instruction_of, clause_of, caught_by, kind_by, locals_of, locals_row, code_of};

use crate::world_code::operands::use_by;
use crate::world_code::tokens::type_named;
use il_base::cil_values::{Clause, ClauseKind, Code, Instruction};
use il_base::world_model::{BadKind, Known, StandAloneSigRow, TypeExpr, index_in};
use il_base::{Body, Handler, Instr, NoMemory, Seq, table};
use il_code::instr_size;
use mark_parts::mark_tables::assembly::Assembly;
use std::alloc::Global;
use type_tables::member_search::method_types::open_types;

/// The kinds of handlers that aren't faults (II.25.4.6).
const CATCH: u8 = 0;

const FINALLY: u8 = 2;

/// The IL offset after an instruction, modulo 2^32.
fn next_at(i: &Instr) -> u32
    ensures { result ≡ (i.now.at + length (instr_bytes i.now)) % 4294967296 }
{
    ((u64::from(i.at) + instr_size(i)) % 0x1_0000_0000) as u32
}

/// An instruction.
#[tactic(auto, unfolding(rules::specs::view_rules::Code::instruction_of))]
fn instruction(alloc: Global, asm: &Assembly<'_>, i: &Instr) -> Result<Instruction, NoMemory>
    requires { IsAssembly asm.now }
    ensures { IfOk result (λ r. r ≡ instruction_of (recs_of asm.now) (place_of asm.now) (rec_of asm.now) i.now) }
{
    let operand = use_by(alloc, asm, i.form, &i.operand)?;
    Ok(Instruction {
        at: i.at,
        next: next_at(i),
        form: i.form,
        opcode: i.opcode,
        operand,
    })
}

fn instructions(
    alloc: Global,
    asm: &Assembly<'_>,
    code: &[Instr],
) -> Result<Seq<Instruction>, NoMemory>
    requires { IsAssembly asm.now }
    ensures { IfOk result (λ is. is ≡ map (instruction_of (recs_of asm.now) (place_of asm.now) (rec_of asm.now)) code.now) }
{
    let mut made = Seq::new(alloc);
    for i in code {
        let one = instruction(alloc, asm, i)?;
        made.push(one)?;
    }
    Ok(made)
}

/// What a handler is for.
fn kind_by(kind: u8) -> ClauseKind
    ensures { result ≡ kind_by kind }
{
    if kind == CATCH {
        ClauseKind::Catch
    } else if kind == FINALLY {
        ClauseKind::Finally
    } else {
        ClauseKind::Fault
    }
}

/// The offset after a range. No body has one past 2^32.
fn end_of(at: u32, len: u32) -> Result<u32, NoMemory>
    ensures { IfOk result (λ end. end ≡ at + len) }
{
    match at.checked_add(len) {
        None => Err(NoMemory),
        Some(end) => Ok(end),
    }
}

/// The type of a catch clause; another clause has none.
fn caught_by(alloc: Global, asm: &Assembly<'_>, h: &Handler) -> Result<Known<TypeExpr>, NoMemory>
    requires { IsAssembly asm.now }
    ensures { IfOk result (λ c. c ≡ caught_by (recs_of asm.now) (place_of asm.now) (rec_of asm.now) h.now) }
{
    if h.kind != CATCH {
        return Ok(Known::Bad(BadKind::Unresolved));
    }
    let caught = type_named(alloc, asm, h.token)?;
    Ok(caught)
}

/// An exception handling clause.
#[tactic(auto, unfolding(rules::specs::view_rules::Code::clause_of))]
fn clause(alloc: Global, asm: &Assembly<'_>, h: &Handler) -> Result<Clause, NoMemory>
    requires { IsAssembly asm.now }
    ensures { IfOk result (λ c. c ≡ clause_of (recs_of asm.now) (place_of asm.now) (rec_of asm.now) h.now) }
{
    let try_end = end_of(h.try_at, h.try_len)?;
    let end = end_of(h.at, h.len)?;
    let caught = caught_by(alloc, asm, h)?;
    Ok(Clause {
        kind: kind_by(h.kind),
        try_at: h.try_at,
        try_end,
        at: h.at,
        end,
        caught,
    })
}

fn clauses(alloc: Global, asm: &Assembly<'_>, handlers: &[Handler]) -> Result<Seq<Clause>, NoMemory>
    requires { IsAssembly asm.now }
    ensures { IfOk result (λ cs. cs ≡ map (clause_of (recs_of asm.now) (place_of asm.now) (rec_of asm.now)) handlers.now) }
{
    let mut made = Seq::new(alloc);
    for h in handlers {
        let one = clause(alloc, asm, h)?;
        made.push(one)?;
    }
    Ok(made)
}

/// The types of the locals of a StandAloneSig row (II.23.2.6).
fn locals_row(
    alloc: Global,
    asm: &Assembly<'_>,
    row: Option<&StandAloneSigRow>,
) -> Result<Known<Seq<TypeExpr>>, NoMemory>
    requires { IsAssembly asm.now }
    ensures { IfOk result (λ types. types ≡ locals_row (recs_of asm.now) (place_of asm.now) (rec_of asm.now) (option_copied row.entry)) }
{
    match row {
        None => Ok(Known::Bad(BadKind::Unresolved)),
        Some(row) => match &row.signature {
            Known::Bad(why) => Ok(Known::Bad(*why)),
            Known::Good(sigs) => open_types(alloc, &asm.scope, sigs.as_slice()),
        },
    }
}

/// The types of the locals that a token names; 0 names none.
fn locals_of(
    alloc: Global,
    asm: &Assembly<'_>,
    token: u32,
) -> Result<Known<Seq<TypeExpr>>, NoMemory>
    requires { IsAssembly asm.now }
    ensures { IfOk result (λ types. types ≡ locals_of (recs_of asm.now) (place_of asm.now) (rec_of asm.now) token) }
{
    if token == 0 {
        return Ok(Known::Good(Seq::new(alloc)));
    }
    let row = match index_in(table::STAND_ALONE_SIG, token) {
        None => None,
        Some(k) => asm.scope.rec.stand_alone_sig.get(k as usize),
    };
    locals_row(alloc, asm, row)
}

/// A body of an assembly with its references resolved.
#[tactic(auto, unfolding(rules::specs::view_rules::Code::code_of))]
pub fn code_of(alloc: Global, asm: &Assembly<'_>, body: &Body) -> Result<Code, NoMemory>
    requires { IsAssembly asm.now }
    ensures { IfOk result (λ c. c ≡ code_of (recs_of asm.now) (place_of asm.now) (rec_of asm.now) body.now) }
{
    let locals = locals_of(alloc, asm, body.locals)?;
    let code = instructions(alloc, asm, body.code.as_slice())?;
    let clauses = clauses(alloc, asm, body.handlers.as_slice())?;
    Ok(Code {
        locals,
        code,
        clauses,
    })
}
