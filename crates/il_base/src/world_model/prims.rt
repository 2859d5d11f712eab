//! The core library's primitives, and the ids of types.

ghost use Rattle.std.specs.Prelude.{◌≡◌, ◌≤◌, min, find, position, sum_by, IfOk, OnErr, MatchOption};
ghost use Rattle.std.specs.Option.{option_map};
ghost use Rattle.il_base.specs.world_model.Worlds.{types_in, type_id, prims, is_prim_name, prim_of, is_code_of, core_types, prim_type};

use crate::world_model::record::AsmRec;
use crate::world_model::types::TypeDefRow;
use crate::{NoMemory, TypeId, element};

/// The element type of the type of the namespace `System` with this name (II.23.1.16).
#[tactic(auto, unfolding(crate::specs::world_model::Worlds::prims))]
fn prim_named(name: &[u8]) -> Option<u8>
    ensures { result ≡ option_map (λ p. p.0) (find (is_prim_name name.now) prims) }
{
    if name == b"Void".as_slice() {
        Some(element::VOID)
    } else if name == b"Boolean".as_slice() {
        Some(element::BOOLEAN)
    } else if name == b"Char".as_slice() {
        Some(element::CHAR)
    } else if name == b"SByte".as_slice() {
        Some(element::I1)
    } else if name == b"Byte".as_slice() {
        Some(element::U1)
    } else if name == b"Int16".as_slice() {
        Some(element::I2)
    } else if name == b"UInt16".as_slice() {
        Some(element::U2)
    } else if name == b"Int32".as_slice() {
        Some(element::I4)
    } else if name == b"UInt32".as_slice() {
        Some(element::U4)
    } else if name == b"Int64".as_slice() {
        Some(element::I8)
    } else if name == b"UInt64".as_slice() {
        Some(element::U8)
    } else if name == b"String".as_slice() {
        Some(element::STRING)
    } else if name == b"IntPtr".as_slice() {
        Some(element::I)
    } else if name == b"UIntPtr".as_slice() {
        Some(element::U)
    } else if name == b"Object".as_slice() {
        Some(element::OBJECT)
    } else {
        None
    }
}

/// The element type of a type of the core library; None for a type that is no primitive.
#[tactic(auto, unfolding(crate::specs::world_model::Worlds::prim_of))]
pub fn prim_of(row: &TypeDefRow) -> Option<u8>
    ensures { result ≡ prim_of row.now }
{
    if row.namespace.as_slice() == b"System".as_slice() {
        prim_named(row.name.as_slice())
    } else {
        None
    }
}

fn is_code_of(n: u8, row: &TypeDefRow) -> bool
    ensures { result ≡ is_code_of n row.now }
{
    match prim_of(row) {
        None => false,
        Some(code) => code == n,
    }
}

/// The rows of the core library, which is the last assembly.
#[tactic(auto, unfolding(crate::specs::world_model::Worlds::core_types))]
fn core_types(recs: &[AsmRec]) -> &[TypeDefRow]
    ensures { result.now ≡ core_types recs.now }
{
    match recs {
        [] => &[],
        [.., core] => core.type_def.as_slice(),
    }
}

/// The row, from 0, of the first of these types that is a primitive of this element type.
fn row_of_prim(types: &[TypeDefRow], n: u8) -> Option<usize>
    ensures { result ≡ position (is_code_of n) types.now }
{
    types.iter().position(|row| is_code_of(n, row))
}

/// How many types the assemblies have, or 2^64 - 1 where there are more.
fn count_types(recs: &[AsmRec]) -> u64
    ensures { result ≡ min (sum_by types_in recs.now) 18446744073709551615 }
{
    let mut count = 0u64;
    for rec in recs {
        count = count.saturating_add(rec.type_def.len() as u64);
    }
    count
}

/// The id of the type in a row of the assembly at a place, both from 0; None where the id has more than 32 bits.
pub fn type_id(recs: &[AsmRec], at: usize, row: usize) -> Option<TypeId>
    ensures { MatchOption result (4294967296 ≤ (type_id recs.now at row).0) (λ t. t ≡ type_id recs.now at row) }
{
    let before = count_types(&recs[..at.min(recs.len())]);
    let id = before.saturating_add(row as u64);
    if id < 0x1_0000_0000 {
        Some(TypeId(id as u32))
    } else {
        None
    }
}

/// The type of the core library, which is the last assembly, that a primitive is by its element type; None where it has
/// none. The error comes where the type's id has more than 32 bits.
#[tactic(auto, unfolding(crate::specs::world_model::Worlds::prim_type))]
pub fn prim_type(recs: &[AsmRec], n: u8) -> Result<Option<TypeId>, NoMemory>
    ensures ok { IfOk result (λ t. t ≡ prim_type recs.now n) }
    ensures err { OnErr result (MatchOption (prim_type recs.now n) ⊥ (λ t. 4294967296 ≤ t.0)) }
{
    match row_of_prim(core_types(recs), n) {
        None => Ok(None),
        Some(row) => match type_id(recs, recs.len().saturating_sub(1), row) {
            None => Err(NoMemory),
            Some(id) => Ok(Some(id)),
        },
    }
}
