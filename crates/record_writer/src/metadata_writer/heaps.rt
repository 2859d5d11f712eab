//! The heaps (II.24.2.3 to II.24.2.5).

ghost use Rattle.std.specs.Prelude.{◌≡◌, ◌+◌, ◌*◌, ◌≤◌, ◌<◌, ◌^◌, ◌∷◌, [], ◌++◌, length, map, IfOk, OnOk};
ghost use Rattle.std.specs.List.{flat_map, list_any};
ghost use Rattle.rules.specs.file_layout.Heaps as layout;
ghost use Rattle.record_writer.specs.metadata_writer.Places.{starts_of};
ghost use Rattle.record_writer.specs.metadata_writer.Lengths.{length_bytes, blob_put, user_put, blobs_put, users_put};

use crate::byte_writer::{pad, put_half};
use crate::metadata_writer::pool::Pool;
use il_base::NoMemory;
use il_base::world_model::UserText;
use std::alloc::Global;

/// A heap whose items are named by their places.
#[derive(Drop)]
pub struct Heap {
    pub bytes: Vec<u8>,
    /// Where each item begins, in order, and where the last one ends.
    pub starts: Vec<u64>,
}

/// Puts a length (II.24.2.4): in one, two or four bytes. One of 2^29 or more has no spelling, and takes four bytes.
#[tactic(auto, unfolding(crate::specs::metadata_writer::Lengths::length_bytes))]
fn put_length(out: &mut Vec<u8>, n: usize) -> Result<(), NoMemory>
    ensures { OnOk result (out.new.items ≡ out.old.items ++ length_bytes n) }
{
    if n < 0x80 {
        out.push(n as u8)?;
    } else if n < 0x4000 {
        out.extend_from_slice(&[(0x80 + n / 0x100) as u8, (n % 0x100) as u8])?;
    } else {
        out.extend_from_slice(&[
            ((0xc0 + n / 0x100_0000) % 0x100) as u8,
            (n / 0x1_0000 % 0x100) as u8,
            (n / 0x100 % 0x100) as u8,
            (n % 0x100) as u8,
        ])?;
    }
    Ok(())
}

/// `#Strings`: each text with a zero after it.
#[tactic(auto, unfolding(rules::specs::file_layout::Heaps::strings_heap))]
pub fn strings(alloc: Global, texts: &Pool) -> Result<Heap, NoMemory>
    ensures bytes { IfOk result (λ h. h.bytes.items ≡ layout.strings_heap texts.now) }
    ensures starts { IfOk result (λ h. h.starts.items ≡ starts_of layout.string_item 1 texts.now) }
{
    let mut bytes = Vec::from_slice(alloc, &[0])?;
    let mut starts = Vec::new(alloc);
    for text in texts.items() {
        starts.push(bytes.len() as u64)?;
        bytes.extend_from_slice(text)?;
        bytes.push(0)?;
    }
    starts.push(bytes.len() as u64)?;
    pad(&mut bytes, 4)?;
    Ok(Heap { bytes, starts })
}

/// A blob after its length.
#[tactic(auto, unfolding(crate::specs::metadata_writer::Lengths::blob_put))]
fn put_blob(out: &mut Vec<u8>, blob: &[u8]) -> Result<(), NoMemory>
    ensures { OnOk result (out.new.items ≡ out.old.items ++ blob_put blob.now) }
{
    put_length(out, blob.len())?;
    out.extend_from_slice(blob)?;
    Ok(())
}

/// `#Blob`: each blob after its length.
#[tactic(auto, unfolding(crate::specs::metadata_writer::Lengths::blobs_put))]
pub fn blobs(alloc: Global, items: &Pool) -> Result<Heap, NoMemory>
    ensures bytes { IfOk result (λ h. h.bytes.items ≡ blobs_put items.now) }
    ensures starts { IfOk result (λ h. h.starts.items ≡ starts_of blob_put 1 items.now) }
{
    let mut bytes = Vec::from_slice(alloc, &[0])?;
    let mut starts = Vec::new(alloc);
    for item in items.items() {
        starts.push(bytes.len() as u64)?;
        put_blob(&mut bytes, item)?;
    }
    starts.push(bytes.len() as u64)?;
    pad(&mut bytes, 4)?;
    Ok(Heap { bytes, starts })
}

/// `#GUID`: the GUIDs.
#[tactic(auto, unfolding(rules::specs::file_layout::Heaps::guids_heap))]
pub fn guids(alloc: Global, items: &Pool) -> Result<Vec<u8>, NoMemory>
    ensures { IfOk result (λ v. v.items ≡ layout.guids_heap items.now) }
{
    let mut bytes = Vec::new(alloc);
    for item in items.items() {
        bytes.extend_from_slice(item)?;
    }
    Ok(bytes)
}

/// Whether a UTF-16 unit is special: its high byte isn't zero, or it is one of the characters 01 to 08, 0e to 1f, 27, 2d and 7f
/// (II.24.2.4).
#[tactic(auto, unfolding(rules::specs::file_layout::Heaps::is_special))]
fn is_special(unit: u16) -> bool
    ensures { result ≡ layout.is_special unit }
{
    unit >= 0x100
        || (0x01 <= unit && unit <= 0x08)
        || (0x0e <= unit && unit <= 0x1f)
        || unit == 0x27
        || unit == 0x2d
        || unit == 0x7f
}

/// Whether one of some units is special.
fn has_special(units: &[u16]) -> bool
    ensures { result ≡ list_any layout.is_special units.now }
{
    units.iter().any(|unit| is_special(*unit))
}

/// The last byte of a user text: whether one of its units is special.
fn last_byte(units: &[u16]) -> u8
    ensures { result ≡ layout.last_byte units.now }
{
    if has_special(units) { 1 } else { 0 }
}

/// The units of a user text.
fn put_units(out: &mut Vec<u8>, units: &[u16]) -> Result<(), NoMemory>
    ensures { OnOk result (out.new.items ≡ out.old.items ++ layout.units_bytes units.now) }
{
    for unit in units {
        put_half(out, u64::from(*unit))?;
    }
    Ok(())
}

/// A user text after its length in bytes.
#[tactic(auto, unfolding(crate::specs::metadata_writer::Lengths::user_put))]
fn put_user(out: &mut Vec<u8>, units: &[u16]) -> Result<(), NoMemory>
    ensures { OnOk result (out.new.items ≡ out.old.items ++ user_put units.now) }
{
    put_length(out, 2 * units.len() + 1)?;
    put_units(out, units)?;
    out.push(last_byte(units))?;
    Ok(())
}

/// `#US`: each text after its length (II.24.2.4).
#[tactic(auto, unfolding(crate::specs::metadata_writer::Lengths::users_put))]
pub fn users(alloc: Global, texts: &[UserText]) -> Result<Vec<u8>, NoMemory>
    ensures { IfOk result (λ v. v.items ≡ users_put (map (λ t. t.text) texts.now)) }
{
    let mut bytes = Vec::from_slice(alloc, &[0])?;
    for text in texts {
        put_user(&mut bytes, text.text.as_slice())?;
    }
    pad(&mut bytes, 4)?;
    Ok(bytes)
}
