//! The bytes of fields and where they are (II.22.18).

ghost use Rattle.std.specs.Prelude.{◌≡◌, ◌+◌, ◌%◌, ◌<◌, ◌^◌, ◌++◌, length, IfOk, OnOk};
ghost use Rattle.rules.specs.file_layout.Bytes.{aligned, padded};
ghost use Rattle.rules.specs.record_layout.FieldData as layout;

use crate::byte_writer::{next_multiple, pad};
use crate::image_writer::CODE_RVA;
use il_base::world_model::{FieldRvaRow, Known};
use il_base::{NoMemory, Text};
use std::alloc::Global;

/// The code of bodies with the bytes of fields after it.
#[derive(Drop)]
pub struct Code {
    /// The code, and after it each row's bytes at a multiple of 8.
    pub bytes: Vec<u8>,
    /// The RVA of each row's bytes.
    pub rvas: Vec<u32>,
}

/// The RVA of bytes that are put after so many.
fn rva_after(len: usize) -> u32
    requires { len < 2 ^ 63 }
    ensures { result ≡ (0x2050 + aligned 8 len) % 4294967296 }
{
    ((CODE_RVA + next_multiple(8, len as u64)) % 0x1_0000_0000) as u32
}

/// Puts the bytes of a field after others.
fn put_bytes(out: &mut Vec<u8>, bytes: &Known<Text>) -> Result<(), NoMemory>
    ensures { OnOk result (out.new.items ≡ padded 8 out.old.items ++ layout.data_of bytes.now) }
{
    pad(out, 8)?;
    match bytes {
        Known::Bad(_) => Ok(()),
        Known::Good(bytes) => {
            out.extend_from_slice(bytes.as_slice())?;
            Ok(())
        }
    }
}

/// Puts the bytes of fields after the code of bodies, in their order.
#[tactic(auto, unfolding(rules::specs::record_layout::FieldData::with_data, rules::specs::record_layout::FieldData::with_all_data, rules::specs::record_layout::FieldData::data_rvas))]
pub fn put_field_data(
    alloc: Global,
    bodies: Vec<u8>,
    rows: &[FieldRvaRow],
) -> Result<Code, NoMemory>
    ensures bytes { IfOk result (λ c. c.bytes.items ≡ layout.with_all_data bodies.items rows.now) }
    ensures rvas { IfOk result (λ c. c.rvas.items ≡ layout.data_rvas bodies.items rows.now) }
{
    let mut bytes = bodies;
    let mut rvas = Vec::new(alloc);
    for row in rows {
        rvas.push(rva_after(bytes.len()))?;
        put_bytes(&mut bytes, &row.bytes)?;
    }
    Ok(Code { bytes, rvas })
}
