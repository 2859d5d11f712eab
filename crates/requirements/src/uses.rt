//! The sites of each instruction.

ghost use Rattle.std.specs.Prelude.{◌≡◌, ◌++◌, OnOk};
ghost use Rattle.std.specs.List.{flat_map};
ghost use Rattle.std.specs.Option.{option_copied};
ghost use Rattle.rules.specs.link_rules.Cycles.{listed};
ghost use Rattle.rules.specs.flow_rules.Moves.{is_field_load, is_field_store};
ghost use Rattle.rules.specs.site_rules.Bodies.{field_sites, return_sites, use_sites, operand_sites, instruction_sites};
ghost use Rattle.requirements.specs.Bodies.{flowed, IsBody};

use crate::body::Body;
use crate::calls::{put_call_if, put_creation_if};
use crate::generic_sites::asking::put_asking;
use crate::generic_sites::operands::{Row, put_operand};
use crate::values::{anything_at, value_from_top};
use il_base::world_model::{FieldUse, token_of};
use il_base::{Form, Instr, NoMemory, Seq, opcode, table};
use rules::site_rules::{Site, Target};
use site_kinds::annotated::{field_kinds, return_kinds};
use std::alloc::Global;

fn is_store(code: u16) -> bool
    ensures { result ≡ is_field_store code }
{
    code == opcode::STFLD || code == opcode::STSFLD
}

fn is_load(code: u16) -> bool
    ensures { result ≡ is_field_load code }
{
    code == opcode::LDFLD || code == opcode::LDSFLD
}

/// Puts the site of a use of a field at the end: of a store, or of an address, by which anything may be stored.
#[tactic(auto, using(crate::proofs::Lists::none_more))]
fn put_field(
    alloc: Global,
    body: &Body<'_, '_, '_, '_>,
    offset: u32,
    code: u16,
    used: &FieldUse,
    sites: &mut Seq<Site>,
) -> Result<(), NoMemory>
    requires { IsBody body.now }
    ensures { OnOk result (sites.new ≡ sites.old ++ field_sites (flowed body.now) offset code used.now) }
{
    let kinds = field_kinds(alloc, body.annotated, used.field)?;
    let place = body.place(offset)?;
    let to = Target::Field(used.field);
    if is_store(code) {
        let stored = value_from_top(alloc, body, offset, 1)?;
        return put_asking(place, to, kinds, stored, sites);
    }
    if is_load(code) {
        return Ok(());
    }
    let anything = anything_at(alloc, body, offset)?;
    put_asking(place, to, kinds, anything, sites)
}

#[tactic(auto, using(crate::proofs::Lists::none_more))]
fn put_field_if(
    alloc: Global,
    body: &Body<'_, '_, '_, '_>,
    offset: u32,
    code: u16,
    used: Option<&FieldUse>,
    sites: &mut Seq<Site>,
) -> Result<(), NoMemory>
    requires { IsBody body.now }
    ensures { OnOk result (sites.new ≡ sites.old ++ flat_map (field_sites (flowed body.now) offset code) (listed (option_copied used.entry))) }
{
    match used {
        None => Ok(()),
        Some(used) => put_field(alloc, body, offset, code, used, sites),
    }
}

/// Puts the site of a return at the end.
fn put_return(
    alloc: Global,
    body: &Body<'_, '_, '_, '_>,
    offset: u32,
    sites: &mut Seq<Site>,
) -> Result<(), NoMemory>
    requires { IsBody body.now }
    ensures { OnOk result (sites.new ≡ sites.old ++ return_sites (flowed body.now) offset) }
{
    let kinds = return_kinds(alloc, body.annotated, body.id)?;
    let place = body.place(offset)?;
    let returned = value_from_top(alloc, body, offset, 1)?;
    put_asking(place, Target::Return(body.id), kinds, returned, sites)
}

/// Puts the sites of what an instruction does at the end.
#[tactic(auto, unfolding(rules::specs::site_rules::Bodies::use_sites), using(crate::proofs::Lists::none_more))]
fn put_use(
    alloc: Global,
    body: &Body<'_, '_, '_, '_>,
    i: &Instr,
    form: Form,
    sites: &mut Seq<Site>,
) -> Result<(), NoMemory>
    requires { IsBody body.now }
    ensures { OnOk result (sites.new ≡ sites.old ++ use_sites (flowed body.now) i.now form) }
{
    match form {
        Form::Call => put_call_if(alloc, body, i.at, body.named_use(&i.operand), sites),
        Form::NewObj => put_creation_if(alloc, body, i.at, body.named_use(&i.operand), sites),
        Form::Field => {
            put_field_if(
                alloc,
                body,
                i.at,
                i.opcode,
                body.named_field(&i.operand),
                sites,
            )
        }
        Form::Ret => put_return(alloc, body, i.at, sites),
        Form::Nop
        | Form::LdArg
        | Form::LdArgA
        | Form::StArg
        | Form::LdLoc
        | Form::LdLocA
        | Form::StLoc
        | Form::LdNull
        | Form::LdI4
        | Form::LdI8
        | Form::LdStr
        | Form::Dup
        | Form::Pop
        | Form::Br
        | Form::BrIf
        | Form::Switch
        | Form::Leave
        | Form::EndFinally
        | Form::Binary
        | Form::Unary
        | Form::Convert
        | Form::Throw
        | Form::Cast
        | Form::Box
        | Form::Unbox
        | Form::NewArr
        | Form::Elem
        | Form::Indirect
        | Form::LdToken
        | Form::Prefix => Ok(()),
    }
}

/// Puts the sites of what an operand names at the end.
fn put_operand_sites(
    alloc: Global,
    body: &Body<'_, '_, '_, '_>,
    i: &Instr,
    sites: &mut Seq<Site>,
) -> Result<(), NoMemory>
    requires { IsBody body.now }
    ensures { OnOk result (sites.new ≡ sites.old ++ operand_sites (flowed body.now) i.now) }
{
    let token = token_of(table::METHOD_DEF, body.at.row as usize)?;
    let method = body.method;
    let row = Row {
        asm: body.at.asm,
        rec: method.rec,
        owner: body.owner,
        token,
    };
    put_operand(alloc, body.annotated, &row, i, sites)
}

#[tactic(auto, using(crate::proofs::Lists::two_put))]
fn put_instruction(
    alloc: Global,
    body: &Body<'_, '_, '_, '_>,
    i: &Instr,
    sites: &mut Seq<Site>,
) -> Result<(), NoMemory>
    requires { IsBody body.now }
    ensures { OnOk result (sites.new ≡ sites.old ++ instruction_sites (flowed body.now) i.now) }
{
    put_use(alloc, body, i, i.form, sites)?;
    put_operand_sites(alloc, body, i, sites)
}

/// Puts the sites of instructions at the end.
pub(crate) fn put_code(
    alloc: Global,
    body: &Body<'_, '_, '_, '_>,
    code: &[Instr],
    sites: &mut Seq<Site>,
) -> Result<(), NoMemory>
    requires { IsBody body.now }
    ensures { OnOk result (sites.new ≡ sites.old ++ flat_map (instruction_sites (flowed body.now)) code.now) }
{
    for i in code {
        put_instruction(alloc, body, i, sites)?;
    }
    Ok(())
}
