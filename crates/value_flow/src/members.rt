//! The members of System.Type that turn sources, and the type of a method.

ghost use Rattle.std.specs.Prelude.{◌≡◌, IfOk};
ghost use Rattle.std.specs.List.{position_from};
ghost use Rattle.std.specs.Option.{option_copied};
ghost use Rattle.il_base.specs.world_model.Worlds.{type_id};
ghost use Rattle.rules.specs.link_rules.Members.{owns_method};
ghost use Rattle.rules.specs.type_rules.Slots.{type_of_method};
ghost use Rattle.rules.specs.type_rules.Rows.{type_row_at};
ghost use Rattle.rules.specs.flow_rules.Sources.{is_called, is_system_type, is_core_type, is_of_type, is_type_member};
ghost use Rattle.rules.specs.flow_rules.Flows.{owner_at, owner_of};

use il_base::world_model::{AsmRec, TypeDefRow, type_id};
use il_base::{MethodId, NoMemory, TypeId};
use rules::link_rules::RowAt;
use type_tables::member_search::linked::assembly_at;
use type_tables::methods::{method_home, method_row_at};

fn is_called(recs: &[AsmRec], name: &[u8], at: RowAt) -> bool
    ensures { result ≡ is_called recs.now name.now at }
{
    match method_row_at(recs, at) {
        None => false,
        Some(m) => m.name.as_slice() == name,
    }
}

fn is_system_type(t: &TypeDefRow) -> bool
    ensures { result ≡ is_system_type t.now }
{
    t.namespace.as_slice() == b"System".as_slice() && t.name.as_slice() == b"Type".as_slice()
}

fn type_row_at(recs: &[AsmRec], at: RowAt) -> Option<&TypeDefRow>
    ensures { option_copied result ≡ type_row_at recs.now at }
{
    match assembly_at(recs, at.asm) {
        None => None,
        Some(rec) => rec.type_def.get(at.row as usize),
    }
}

fn is_core_type(recs: &[AsmRec], at: RowAt) -> bool
    ensures { result ≡ is_core_type recs.now at }
{
    if u64::from(at.asm) + 1 != recs.len() as u64 {
        return false;
    }
    match type_row_at(recs, at) {
        None => false,
        Some(t) => is_system_type(t),
    }
}

fn owns_method(row: u64, t: &TypeDefRow) -> bool
    ensures { result ≡ owns_method row t.now }
{
    u64::from(t.method_list_first) <= row && row < u64::from(t.method_list_end)
}

/// The first of these types that has the method of a row, which is counted from 1.
fn owner_in(types: &[TypeDefRow], row: u64) -> Result<Option<u32>, NoMemory>
    ensures { IfOk result (λ place. place ≡ position_from (owns_method row) 0 types.now) }
{
    for (i, t) in types.iter().enumerate() {
        if owns_method(row, t) {
            let Ok(place) = u32::try_from(i) else {
                return Err(NoMemory);
            };
            return Ok(Some(place));
        }
    }
    Ok(None)
}

/// The type that has a method.
fn type_of_method(recs: &[AsmRec], at: RowAt) -> Result<Option<RowAt>, NoMemory>
    ensures { IfOk result (λ t. t ≡ type_of_method recs.now at) }
{
    let Some(rec) = assembly_at(recs, at.asm) else {
        return Ok(None);
    };
    match owner_in(rec.type_def.as_slice(), u64::from(at.row) + 1) {
        Err(error) => Err(error),
        Ok(None) => Ok(None),
        Ok(Some(row)) => Ok(Some(RowAt { asm: at.asm, row })),
    }
}

fn is_of_type(recs: &[AsmRec], at: RowAt) -> Result<bool, NoMemory>
    ensures { IfOk result (λ is. is ≡ is_of_type recs.now at) }
{
    match type_of_method(recs, at) {
        Err(error) => Err(error),
        Ok(None) => Ok(false),
        Ok(Some(t)) => Ok(is_core_type(recs, t)),
    }
}

/// Whether a method is a member of System.Type of the core library with this name.
pub(crate) fn is_type_member(recs: &[AsmRec], m: MethodId, name: &[u8]) -> Result<bool, NoMemory>
    ensures { IfOk result (λ is. is ≡ is_type_member recs.now m name.now) }
{
    match method_home(recs, m) {
        Err(error) => Err(error),
        Ok(None) => Ok(false),
        Ok(Some(at)) => {
            if !is_called(recs, name, at) {
                return Ok(false);
            }
            is_of_type(recs, at)
        }
    }
}

fn id_of(recs: &[AsmRec], at: RowAt) -> Result<TypeId, NoMemory>
    ensures { IfOk result (λ t. t ≡ type_id recs.now at.asm at.row) }
{
    match type_id(recs, at.asm as usize, at.row as usize) {
        None => Err(NoMemory),
        Some(t) => Ok(t),
    }
}

/// The type that has the method of a row.
fn owner_at(recs: &[AsmRec], at: RowAt) -> Result<Option<TypeId>, NoMemory>
    ensures { IfOk result (λ t. t ≡ owner_at recs.now at) }
{
    let of = match type_of_method(recs, at) {
        Err(error) => return Err(error),
        Ok(None) => return Ok(None),
        Ok(Some(of)) => of,
    };
    match id_of(recs, of) {
        Err(error) => Err(error),
        Ok(t) => Ok(Some(t)),
    }
}

/// The type that has a method.
pub(crate) fn owner_of(recs: &[AsmRec], m: MethodId) -> Result<Option<TypeId>, NoMemory>
    ensures { IfOk result (λ t. t ≡ owner_of recs.now m) }
{
    match method_home(recs, m) {
        Err(error) => Err(error),
        Ok(None) => Ok(None),
        Ok(Some(at)) => owner_at(recs, at),
    }
}
