//! What method bodies refer to (II.25.4): their locals, the operands of their instructions and the types that they catch.

ghost use Rattle.std.specs.Prelude.{◌≡◌, ◌++◌, [], slice_get, OnOk};
ghost use Rattle.std.specs.List.{flat_map};
ghost use Rattle.std.specs.Option.{option_copied, option_and_then};
ghost use Rattle.il_base.specs.declared.table.TheConstants.{STAND_ALONE_SIG};
ghost use Rattle.il_base.specs.world_model.Tokens.{index_in};
ghost use Rattle.rules.specs.merge_rules.Order.{met_by_form, met_operand, met_locals_row, met_locals_token, met_body};
ghost use Rattle.token_keys.specs.Keys.{IsKeys, recs_of, place_of, rec_of};
ghost use Rattle.restrict.specs.met_parts.Forms.{met_by_names, met_instr, met_handler};

use crate::met_parts::tokens::{meet_any, meet_callee, meet_field, meet_type};
use il_base::world_model::{AsmRec, Known, StandAloneSigRow, index_in};
use il_base::{Body, Form, Handler, Instr, NoMemory, Operand, table};
use mark_parts::forms::{Names, names_of};
use std::alloc::Global;
use token_keys::keys::Keys;
use token_keys::met_forms::Mets;
use token_keys::sigs::world_sigs;

/// Meets what a token of an operand names.
#[tactic(auto, unfolding(crate::specs::met_parts::Forms::met_by_names), using(crate::proofs::lemmas::met_parts::Lists::none_more))]
fn meet_named(
    alloc: Global,
    keys: &Keys<'_>,
    names: Names,
    token: u32,
    mets: &mut Mets,
) -> Result<(), NoMemory>
    requires { IsKeys keys.now }
    ensures { OnOk result (mets.new ≡ mets.old ++ met_by_names (recs_of keys.now) (place_of keys.now) (rec_of keys.now) names token) }
{
    match names {
        Names::Method => meet_callee(alloc, keys, token, mets),
        Names::Field => meet_field(alloc, keys, token, mets),
        Names::Any => meet_any(alloc, keys, token, mets),
        Names::Text => Ok(()),
        Names::Type => meet_type(alloc, keys, token, mets),
    }
}

/// Meets what the token of an instruction names, by the instruction's form.
fn meet_form(
    alloc: Global,
    keys: &Keys<'_>,
    form: Form,
    token: u32,
    mets: &mut Mets,
) -> Result<(), NoMemory>
    requires { IsKeys keys.now }
    ensures { OnOk result (mets.new ≡ mets.old ++ met_by_form (recs_of keys.now) (place_of keys.now) (rec_of keys.now) form token) }
{
    let names = names_of(form);
    meet_named(alloc, keys, names, token, mets)?;
    Ok(())
}

/// Meets what an instruction names.
#[tactic(auto, using(crate::proofs::lemmas::met_parts::Lists::none_more))]
fn meet_instr(
    alloc: Global,
    keys: &Keys<'_>,
    instr: &Instr,
    mets: &mut Mets,
) -> Result<(), NoMemory>
    requires { IsKeys keys.now }
    ensures { OnOk result (mets.new ≡ mets.old ++ met_instr (recs_of keys.now) (place_of keys.now) (rec_of keys.now) instr.now) }
{
    match &instr.operand {
        Operand::Token(token) => meet_form(alloc, keys, instr.form, *token, mets),
        Operand::None => Ok(()),
        Operand::Number(_) => Ok(()),
        Operand::Slot(_) => Ok(()),
        Operand::Target(_) => Ok(()),
        Operand::Targets(_) => Ok(()),
    }
}

/// Meets what instructions name.
fn meet_code(
    alloc: Global,
    keys: &Keys<'_>,
    code: &[Instr],
    mets: &mut Mets,
) -> Result<(), NoMemory>
    requires { IsKeys keys.now }
    ensures { OnOk result (mets.new ≡ mets.old ++ flat_map (met_instr (recs_of keys.now) (place_of keys.now) (rec_of keys.now)) code.now) }
{
    for instr in code {
        meet_instr(alloc, keys, instr, mets)?;
    }
    Ok(())
}

/// Meets the type that a handler catches (II.25.4.6).
#[tactic(auto, using(crate::proofs::lemmas::met_parts::Lists::none_more))]
fn meet_handler(
    alloc: Global,
    keys: &Keys<'_>,
    handler: &Handler,
    mets: &mut Mets,
) -> Result<(), NoMemory>
    requires { IsKeys keys.now }
    ensures { OnOk result (mets.new ≡ mets.old ++ met_handler (recs_of keys.now) (place_of keys.now) (rec_of keys.now) handler.now) }
{
    if handler.kind == 0 {
        return meet_type(alloc, keys, handler.token, mets);
    }
    Ok(())
}

/// Meets the types that handlers catch.
fn meet_handlers(
    alloc: Global,
    keys: &Keys<'_>,
    handlers: &[Handler],
    mets: &mut Mets,
) -> Result<(), NoMemory>
    requires { IsKeys keys.now }
    ensures { OnOk result (mets.new ≡ mets.old ++ flat_map (met_handler (recs_of keys.now) (place_of keys.now) (rec_of keys.now)) handlers.now) }
{
    for handler in handlers {
        meet_handler(alloc, keys, handler, mets)?;
    }
    Ok(())
}

/// The row of StandAloneSig that a token names (II.22.36).
fn locals_row(rec: &AsmRec, token: u32) -> Option<&StandAloneSigRow>
    ensures { option_copied result ≡ option_and_then (slice_get rec.now.stand_alone_sig) (index_in STAND_ALONE_SIG token) }
{
    match index_in(table::STAND_ALONE_SIG, token) {
        None => None,
        Some(k) => rec.stand_alone_sig.get(k as usize),
    }
}

/// Meets the locals of a row of StandAloneSig.
#[tactic(auto, using(crate::proofs::lemmas::met_parts::Lists::none_more))]
fn meet_row(
    alloc: Global,
    keys: &Keys<'_>,
    row: &StandAloneSigRow,
    mets: &mut Mets,
) -> Result<(), NoMemory>
    requires { IsKeys keys.now }
    ensures { OnOk result (mets.new ≡ mets.old ++ met_locals_row (recs_of keys.now) (place_of keys.now) (rec_of keys.now) row.now) }
{
    match &row.signature {
        Known::Good(sigs) => {
            let sigs = world_sigs(alloc, keys, sigs.as_slice())?;
            mets.push_locals(sigs)
        }
        Known::Bad(_) => Ok(()),
    }
}

/// Meets the locals of a body, by their StandAloneSig token.
#[tactic(auto, using(crate::proofs::lemmas::met_parts::Lists::none_more))]
pub fn meet_locals(
    alloc: Global,
    keys: &Keys<'_>,
    token: u32,
    mets: &mut Mets,
) -> Result<(), NoMemory>
    requires { IsKeys keys.now }
    ensures { OnOk result (mets.new ≡ mets.old ++ met_locals_token (recs_of keys.now) (place_of keys.now) (rec_of keys.now) token) }
{
    match locals_row(keys.asm.scope.rec, token) {
        None => Ok(()),
        Some(row) => meet_row(alloc, keys, row, mets),
    }
}

/// Meets what a body names: its locals, the operands of its instructions, and the types that it catches.
#[tactic(auto, using(crate::proofs::lemmas::met_parts::Lists::three_put))]
pub fn meet_body(
    alloc: Global,
    keys: &Keys<'_>,
    body: &Body,
    mets: &mut Mets,
) -> Result<(), NoMemory>
    requires { IsKeys keys.now }
    ensures { OnOk result (mets.new ≡ mets.old ++ met_body (recs_of keys.now) (place_of keys.now) (rec_of keys.now) body.now) }
{
    meet_locals(alloc, keys, body.locals, mets)?;
    meet_code(alloc, keys, body.code.as_slice(), mets)?;
    meet_handlers(alloc, keys, body.handlers.as_slice(), mets)
}
