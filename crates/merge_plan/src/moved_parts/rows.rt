//! Rows of members with new tokens, without the flags for rows of tables that aren't written (HasSecurity, HasFieldMarshal).

ghost use Rattle.std.specs.Prelude.{◌≡◌, IfOk};
ghost use Rattle.rules.specs.merge_rules.Moved.{moved_param_row, without};
ghost use Rattle.merge_plan.specs.moved_parts.Moves.{event_by, field_by, method_by, property_by};

use crate::moved_parts::code::moved_known_body;
use crate::moved_parts::sigs::{moved_known_sig, moved_method_sig};
use crate::moved_parts::tokens::NewTokens;
use il_base::world_model::{AsmRec, EventRow, FieldRow, MethodDefRow, ParamRow, PropertyRow};
use il_base::{NoMemory, Seq, field_flags, method_flags, param_flags};
use std::alloc::Global;

/// A word of flags without one of them.
fn without(bit: u16, word: u16) -> u16
    ensures { result ≡ without bit word }
{
    word.saturating_sub(word & bit)
}

/// A Field row (II.22.15).
pub fn moved_field(alloc: Global, tokens: &NewTokens, row: &FieldRow) -> Result<FieldRow, NoMemory>
    ensures { IfOk result (λ f. f ≡ field_by tokens.now row.now) }
{
    let name = Seq::from_slice(alloc, row.name.as_slice())?;
    let signature = moved_known_sig(alloc, tokens, &row.signature)?;
    Ok(FieldRow {
        flags: without(field_flags::HAS_FIELD_MARSHAL, row.flags),
        name,
        signature,
    })
}

/// A MethodDef row (II.22.26) of an assembly, with a run of parameters from a row to another, both from 1. It has no address
/// yet.
pub fn moved_method(
    alloc: Global,
    rec: &AsmRec,
    tokens: &NewTokens,
    first: u32,
    end: u32,
    row: &MethodDefRow,
) -> Result<MethodDefRow, NoMemory>
    ensures { IfOk result (λ m. m ≡ method_by tokens.now rec.now first end row.now) }
{
    let name = Seq::from_slice(alloc, row.name.as_slice())?;
    let signature = moved_method_sig(alloc, tokens, &row.signature)?;
    let body = moved_known_body(alloc, rec, tokens, &row.body)?;
    Ok(MethodDefRow {
        rva: 0,
        impl_flags: row.impl_flags,
        flags: without(method_flags::HAS_SECURITY, row.flags),
        name,
        signature,
        param_list_first: first,
        param_list_end: end,
        body,
        bad_at: 0,
    })
}

/// A Param row (II.22.33).
pub fn moved_param(alloc: Global, row: &ParamRow) -> Result<ParamRow, NoMemory>
    ensures { IfOk result (λ p. p ≡ moved_param_row row.now) }
{
    let name = Seq::from_slice(alloc, row.name.as_slice())?;
    Ok(ParamRow {
        flags: without(param_flags::HAS_FIELD_MARSHAL, row.flags),
        sequence: row.sequence,
        name,
    })
}

/// A Property row (II.22.34).
pub fn moved_property(
    alloc: Global,
    tokens: &NewTokens,
    row: &PropertyRow,
) -> Result<PropertyRow, NoMemory>
    ensures { IfOk result (λ p. p ≡ property_by tokens.now row.now) }
{
    let name = Seq::from_slice(alloc, row.name.as_slice())?;
    let signature = moved_method_sig(alloc, tokens, &row.signature)?;
    Ok(PropertyRow {
        flags: row.flags,
        name,
        signature,
    })
}

/// An Event row (II.22.13).
pub fn moved_event(alloc: Global, tokens: &NewTokens, row: &EventRow) -> Result<EventRow, NoMemory>
    ensures { IfOk result (λ e. e ≡ event_by tokens.now row.now) }
{
    let name = Seq::from_slice(alloc, row.name.as_slice())?;
    Ok(EventRow {
        event_flags: row.event_flags,
        name,
        event_type: tokens.types.get(row.event_type),
    })
}
