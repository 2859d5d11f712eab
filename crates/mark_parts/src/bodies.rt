//! The parts of a method's body: the operands of all its instructions, its locals, and the types that it catches (II.25.4).

ghost use Rattle.std.specs.Prelude.{◌≡◌, ◌++◌, ◌∷◌, [], ◌&&◌, OnOk};
ghost use Rattle.std.specs.List.{list_any, flat_map};
ghost use Rattle.std.specs.Option.{option_copied};
ghost use Rattle.rules.specs.link_rules.Members.{is_field_sig};
ghost use Rattle.rules.specs.mark_rules.Bodies.{is_field_token, is_method_token, any_token_part, is_text_of, text_parts, token_parts, operand_parts, instruction_parts, operands_of, locals_parts, handler_parts, are_locals_read, code_parts, body_parts};
ghost use Rattle.mark_parts.specs.mark_tables.Assemblies.{recs_of, place_of, rec_of, IsAssembly};
ghost use Rattle.mark_parts.specs.Forms.{parts_by};
ghost use Rattle.mark_parts.specs.Items.{is_field_ref, is_text_at, locals_row};

use crate::forms::{Names, names_of};
use crate::mark_facts::parts::Parts;
use crate::mark_tables::assembly::Assembly;
use crate::sigs::add_sigs;
use crate::tokens::{add_field_token, add_method_token, add_type_token};
use il_base::world_model::{
    AsmRec, BadKind, Known, MemberRefRow, MemberSig, StandAloneSigRow, index_in, table_of,
};
use il_base::{Body, Form, Handler, Instr, NoMemory, Operand, table};
use std::alloc::Global;

/// Whether a row of MemberRef is a field's.
fn is_field_row(row: &MemberRefRow) -> bool
    ensures { result ≡ is_field_sig row.now.signature }
{
    match &row.signature {
        Known::Good(MemberSig::Field(_)) => true,
        Known::Good(MemberSig::Method(_)) => false,
        Known::Bad(_) => false,
    }
}

/// Whether a MemberRef token names a field.
fn is_field_ref(rec: &AsmRec, token: u32) -> bool
    ensures { result ≡ is_field_ref rec.now token }
{
    let Some(k) = index_in(table::MEMBER_REF, token) else {
        return false;
    };
    match rec.member_ref.get(k as usize) {
        Some(row) => is_field_row(row),
        None => false,
    }
}

/// Whether a token names a field and not a method.
pub fn is_field_token(rec: &AsmRec, token: u32) -> bool
    ensures { result ≡ is_field_token rec.now token }
{
    let of = table_of(token);
    of == table::FIELD || (of == table::MEMBER_REF && is_field_ref(rec, token))
}

/// Whether a token is one of MethodDef, MemberRef or MethodSpec.
pub fn is_method_token(token: u32) -> bool
    ensures { result ≡ is_method_token token }
{
    let of = table_of(token);
    of == table::METHOD_DEF || of == table::MEMBER_REF || of == table::METHOD_SPEC
}

/// Adds the parts that the operand of `ldtoken` (III.4.17) names.
fn add_any_token(
    alloc: Global,
    asm: &Assembly<'_>,
    row: u32,
    at: u32,
    token: u32,
    parts: &mut Parts,
) -> Result<(), NoMemory>
    requires { IsAssembly asm.now }
    ensures { OnOk result (parts.new ≡ parts.old ++ any_token_part (recs_of asm.now) (place_of asm.now) (rec_of asm.now) row at token ∷ []) }
{
    if is_field_token(asm.scope.rec, token) {
        return add_field_token(alloc, asm, row, at, token, parts);
    }
    if is_method_token(token) {
        return add_method_token(alloc, asm, row, at, token, parts);
    }
    add_type_token(alloc, asm, row, at, token, parts)
}

/// Whether a user string is in a row, from 0.
fn is_text_at(rec: &AsmRec, k: u32) -> bool
    ensures { result ≡ is_text_at rec.now k }
{
    match rec.user.get(k as usize) {
        Some(_text) => true,
        None => false,
    }
}

/// Whether a user string is in one of these rows, from 0.
fn any_text(rec: &AsmRec, rows: &[u32]) -> bool
    ensures { result ≡ list_any (is_text_at rec.now) rows.now }
{
    rows.iter().any(|k| is_text_at(rec, *k))
}

/// Whether a user string is there under a token.
fn has_text(asm: &Assembly<'_>, token: u32) -> bool
    requires { IsAssembly asm.now }
    ensures { result ≡ list_any (is_text_of token) (rec_of asm.now).user }
{
    let rows = asm.owners.texts.rows_with(token);
    any_text(asm.scope.rec, rows)
}

/// Adds the operand of `ldstr` (III.4.16), where no text is there.
fn add_text(
    asm: &Assembly<'_>,
    row: u32,
    at: u32,
    token: u32,
    parts: &mut Parts,
) -> Result<(), NoMemory>
    requires { IsAssembly asm.now }
    ensures { OnOk result (parts.new ≡ parts.old ++ text_parts (rec_of asm.now) row at token) }
{
    if has_text(asm, token) {
        return Ok(());
    }
    parts.push_known(row, at, Known::Bad(BadKind::Unresolved))
}

/// Adds the parts that a token of an operand names.
#[tactic(auto, unfolding(crate::specs::Forms::parts_by))]
fn add_token(
    alloc: Global,
    asm: &Assembly<'_>,
    row: u32,
    at: u32,
    names: Names,
    token: u32,
    parts: &mut Parts,
) -> Result<(), NoMemory>
    requires { IsAssembly asm.now }
    ensures { OnOk result (parts.new ≡ parts.old ++ parts_by (recs_of asm.now) (place_of asm.now) (rec_of asm.now) row at names token) }
{
    match names {
        Names::Method => add_method_token(alloc, asm, row, at, token, parts),
        Names::Field => add_field_token(alloc, asm, row, at, token, parts),
        Names::Any => add_any_token(alloc, asm, row, at, token, parts),
        Names::Text => add_text(asm, row, at, token, parts),
        Names::Type => add_type_token(alloc, asm, row, at, token, parts),
    }
}

/// Adds the parts that the token of an instruction names, by the instruction's form.
fn add_form_token(
    alloc: Global,
    asm: &Assembly<'_>,
    row: u32,
    at: u32,
    form: Form,
    token: u32,
    parts: &mut Parts,
) -> Result<(), NoMemory>
    requires { IsAssembly asm.now }
    ensures { OnOk result (parts.new ≡ parts.old ++ token_parts (recs_of asm.now) (place_of asm.now) (rec_of asm.now) row at form token) }
{
    let names = names_of(form);
    add_token(alloc, asm, row, at, names, token, parts)?;
    Ok(())
}

/// Adds the parts that an instruction names.
fn add_instruction(
    alloc: Global,
    asm: &Assembly<'_>,
    row: u32,
    instr: &Instr,
    parts: &mut Parts,
) -> Result<(), NoMemory>
    requires { IsAssembly asm.now }
    ensures { OnOk result (parts.new ≡ parts.old ++ instruction_parts (recs_of asm.now) (place_of asm.now) (rec_of asm.now) row instr.now) }
{
    match &instr.operand {
        Operand::Token(token) => {
            add_form_token(alloc, asm, row, instr.at, instr.form, *token, parts)
        }
        Operand::None => Ok(()),
        Operand::Number(_) => Ok(()),
        Operand::Slot(_) => Ok(()),
        Operand::Target(_) => Ok(()),
        Operand::Targets(_) => Ok(()),
    }
}

/// Adds the parts that instructions name.
fn add_instructions(
    alloc: Global,
    asm: &Assembly<'_>,
    row: u32,
    code: &[Instr],
    parts: &mut Parts,
) -> Result<(), NoMemory>
    requires { IsAssembly asm.now }
    ensures { OnOk result (parts.new ≡ parts.old ++ flat_map (instruction_parts (recs_of asm.now) (place_of asm.now) (rec_of asm.now) row) code.now) }
{
    for instr in code {
        add_instruction(alloc, asm, row, instr, parts)?;
    }
    Ok(())
}

/// The row of StandAloneSig that a token names.
fn locals_row(rec: &AsmRec, token: u32) -> Option<&StandAloneSigRow>
    ensures { option_copied result ≡ locals_row rec.now token }
{
    let k = index_in(table::STAND_ALONE_SIG, token)?;
    rec.stand_alone_sig.get(k as usize)
}

/// Adds the types of a body's locals.
fn add_locals(
    alloc: Global,
    asm: &Assembly<'_>,
    row: u32,
    token: u32,
    parts: &mut Parts,
) -> Result<(), NoMemory>
    requires { IsAssembly asm.now }
    ensures { OnOk result (parts.new ≡ parts.old ++ locals_parts (recs_of asm.now) (place_of asm.now) (rec_of asm.now) row token) }
{
    if token == 0 {
        return Ok(());
    }
    match locals_row(asm.scope.rec, token) {
        None => parts.push_bad(row, BadKind::Unresolved),
        Some(locals) => add_sigs(alloc, asm, row, &locals.signature, parts),
    }
}

/// Whether a locals token is 0 or names a signature that has a reading.
pub fn are_locals_read(rec: &AsmRec, token: u32) -> bool
    ensures { result ≡ are_locals_read rec.now token }
{
    if token == 0 {
        return true;
    }
    match locals_row(rec, token) {
        None => false,
        Some(locals) => match &locals.signature {
            Known::Good(_) => true,
            Known::Bad(_) => false,
        },
    }
}

/// Whether the instructions of a body have operands.
pub fn has_operands(rec: &AsmRec, read: bool, body: &Body) -> bool
    ensures { result ≡ (read && are_locals_read rec.now body.now.locals) }
{
    read && are_locals_read(rec, body.locals)
}

/// Adds the operands of a body; there are none where the method's signature or the locals have no reading.
#[tactic(auto, using(crate::proofs::Lists::none_more))]
fn add_operands(
    alloc: Global,
    asm: &Assembly<'_>,
    row: u32,
    read: bool,
    body: &Body,
    parts: &mut Parts,
) -> Result<(), NoMemory>
    requires { IsAssembly asm.now }
    ensures { OnOk result (parts.new ≡ parts.old ++ operands_of (recs_of asm.now) (place_of asm.now) (rec_of asm.now) row read body.now) }
{
    let are_read = has_operands(asm.scope.rec, read, body);
    if are_read {
        return add_instructions(alloc, asm, row, body.code.as_slice(), parts);
    }
    Ok(())
}

/// Adds the parts that a body names but the types that it catches. `read` says whether the method's signature has a reading.
#[tactic(auto, using(crate::proofs::Lists::two_put))]
pub(crate) fn add_code(
    alloc: Global,
    asm: &Assembly<'_>,
    row: u32,
    read: bool,
    body: &Body,
    parts: &mut Parts,
) -> Result<(), NoMemory>
    requires { IsAssembly asm.now }
    ensures { OnOk result (parts.new ≡ parts.old ++ code_parts (recs_of asm.now) (place_of asm.now) (rec_of asm.now) row read body.now) }
{
    add_locals(alloc, asm, row, body.locals, parts)?;
    add_operands(alloc, asm, row, read, body, parts)
}

/// Adds the type that a handler catches.
fn add_handler(
    alloc: Global,
    asm: &Assembly<'_>,
    row: u32,
    handler: &Handler,
    parts: &mut Parts,
) -> Result<(), NoMemory>
    requires { IsAssembly asm.now }
    ensures { OnOk result (parts.new ≡ parts.old ++ handler_parts (recs_of asm.now) (place_of asm.now) (rec_of asm.now) row handler.now) }
{
    if handler.kind == 0 {
        return add_type_token(alloc, asm, row, 0, handler.token, parts);
    }
    Ok(())
}

/// Adds the types that handlers catch.
fn add_handlers(
    alloc: Global,
    asm: &Assembly<'_>,
    row: u32,
    handlers: &[Handler],
    parts: &mut Parts,
) -> Result<(), NoMemory>
    requires { IsAssembly asm.now }
    ensures { OnOk result (parts.new ≡ parts.old ++ flat_map (handler_parts (recs_of asm.now) (place_of asm.now) (rec_of asm.now) row) handlers.now) }
{
    for handler in handlers {
        add_handler(alloc, asm, row, handler, parts)?;
    }
    Ok(())
}

/// Adds the parts that a body names.
#[tactic(auto, using(crate::proofs::Lists::two_put))]
pub(crate) fn add_body(
    alloc: Global,
    asm: &Assembly<'_>,
    row: u32,
    read: bool,
    body: &Body,
    parts: &mut Parts,
) -> Result<(), NoMemory>
    requires { IsAssembly asm.now }
    ensures { OnOk result (parts.new ≡ parts.old ++ body_parts (recs_of asm.now) (place_of asm.now) (rec_of asm.now) row read body.now) }
{
    add_code(alloc, asm, row, read, body, parts)?;
    add_handlers(alloc, asm, row, body.handlers.as_slice(), parts)
}
