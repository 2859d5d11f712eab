//! The file of a record, after the bytes of a vector, within the limits on rows and bytes.

ghost use Rattle.std.specs.Prelude.{◌≡◌, ◌+◌, ◌<◌, ◌≤◌, ◌^◌, ◌++◌, length, IfErr, IfOk, OnErr, OnOk, IsTrue, ◌↔◌, None};
ghost use Rattle.rules.specs.record_layout.Laid.{laid};
ghost use Rattle.rules.specs.record_layout.Limits.{users_length, most_users, limit_of};
ghost use Rattle.record_writer.specs.image_writer.Views.{HasPlaces};
ghost use Rattle.record_writer.specs.CanWrite.{CanWrite};
ghost use Rattle.record_writer.specs.Written.{IsContent, Refuses, rows_over};

use crate::bodies::{Bodies, put_bodies};
use crate::error::WriteError;
use crate::field_data::put_field_data;
use crate::image_writer::{Parts, image, image_length};
use crate::metadata_writer::{metadata_of, users};
use crate::row_writer::tables_of;
use crate::rows::rows_over;
use il_base::NoMemory;
use il_base::limit::{OUTPUT_LENGTH, ROWS};
use il_base::world_model::AsmRec;
use std::alloc::Global;

/// The most bytes that a file may have.
const MOST: u64 = 268_435_456;

/// The most bytes that `#US` may have: a token of a text has 24 bits for its place (III.4.16).
const MOST_USERS: u64 = 16_777_216;

/// The parts of an image that come from a record.
#[derive(Drop)]
pub struct Content {
    /// Bodies and, after them, the bytes of fields.
    pub code: Vec<u8>,
    /// The metadata from its root on (II.24.2).
    pub metadata: Vec<u8>,
}

/// The code and the metadata of a record.
fn content_of(alloc: Global, rec: &AsmRec) -> Result<Content, NoMemory>
    requires { CanWrite rec.now }
    ensures { IfOk result (λ c. IsContent c rec.now) }
{
    let bodies = put_bodies(alloc, rec.method_def.as_slice())?;
    let Bodies { bytes, rvas } = bodies;
    let code = put_field_data(alloc, bytes, rec.field_rva.as_slice())?;
    let tables = tables_of(alloc, rec, &rvas, &code.rvas)?;
    let metadata = metadata_of(alloc, tables.as_slice(), rec.user.as_slice())?;
    Ok(Content {
        code: code.bytes,
        metadata,
    })
}

fn length_of(bytes: &[u8]) -> u64
    ensures { result ≡ length bytes.now }
{
    bytes.len() as u64
}

/// How many bytes `#US` has (II.24.2.4).
fn users_length(alloc: Global, rec: &AsmRec) -> Result<u64, NoMemory>
    ensures { IfOk result (λ n. n ≡ users_length rec.now) }
{
    let heap = users(alloc, rec.user.as_slice())?;
    Ok(length_of(&heap))
}

/// Whether the places after code and metadata fit 64 bits, as they do in any memory.
fn has_places(p: &Parts<'_>) -> bool
    ensures { IsTrue result ↔ HasPlaces p.now }
{
    p.code.len() as u64 + (p.metadata.len() as u64) < 0x4000_0000_0000_0000
}

/// Puts bytes after others, all or none.
fn append(out: &mut Vec<u8>, bytes: &[u8]) -> Result<(), NoMemory>
    ensures ok { OnOk result (out.new.items ≡ out.old.items ++ bytes.now) }
    ensures err { OnErr result (out.new.items ≡ out.old.items) }
{
    out.extend_from_slice(bytes)?;
    Ok(())
}

/// Puts the file of code and metadata after the bytes, where it isn't too long.
fn write_content(
    alloc: Global,
    rec: &AsmRec,
    content: &Content,
    out: &mut Vec<u8>,
) -> Result<(), WriteError>
    requires content { IsContent content.now rec.now }
    requires rows { rows_over rec.now ≡ None }
    requires users { users_length rec.now ≤ most_users }
    ensures written { OnOk result (out.new.items ≡ out.old.items ++ laid rec.now) }
    ensures within { OnOk result (limit_of rec.now ≡ None) }
    ensures refused { IfErr result (Refuses rec.now) }
    ensures unchanged { OnErr result (out.new.items ≡ out.old.items) }
{
    let parts = Parts {
        bits: rec.bits,
        entry: rec.entry,
        subsystem: rec.subsystem,
        code: &content.code,
        metadata: &content.metadata,
    };
    if !has_places(&parts) {
        return Err(WriteError::NoMemory);
    }
    let found = image_length(&parts);
    if found > MOST {
        return Err(WriteError::Limit {
            which: OUTPUT_LENGTH,
            found,
        });
    }
    let file = image(alloc, &parts)?;
    append(out, &file)?;
    Ok(())
}

/// Puts the file of a record that passes no limit on rows after the bytes.
#[tactic(auto, using(crate::proofs::Passed::users_passed))]
fn write_rows(alloc: Global, rec: &AsmRec, out: &mut Vec<u8>) -> Result<(), WriteError>
    requires can { CanWrite rec.now }
    requires rows { rows_over rec.now ≡ None }
    ensures written { OnOk result (out.new.items ≡ out.old.items ++ laid rec.now) }
    ensures within { OnOk result (limit_of rec.now ≡ None) }
    ensures can { OnOk result (CanWrite rec.now) }
    ensures refused { IfErr result (Refuses rec.now) }
    ensures unchanged { OnErr result (out.new.items ≡ out.old.items) }
{
    let found = users_length(alloc, rec)?;
    if found > MOST_USERS {
        return Err(WriteError::Limit {
            which: OUTPUT_LENGTH,
            found,
        });
    }
    let content = content_of(alloc, rec)?;
    write_content(alloc, rec, &content, out)
}

/// Appends the file of a record to the bytes: the one that `record_layout` lays it out in. After a refusal they are as before.
///
/// `Limit` comes exactly where the file passes a limit, with the first one. It is 5 where a table has more than 1048576 rows, or
/// where a run begins after the last of exactly 65535 rows. It is 7 where `#US` would have more than 16777216 bytes, or the file
/// more than
/// 268435456. The premise that each signature and body has a spelling is made only of a record whose tables don't have too many rows.
#[tactic(auto, using(crate::proofs::Passed::rows_passed))]
pub fn write(alloc: Global, rec: &AsmRec, out: &mut Vec<u8>) -> Result<(), WriteError>
    requires { rows_over rec.now ≡ None → CanWrite rec.now }
    ensures written { OnOk result (out.new.items ≡ out.old.items ++ laid rec.now) }
    ensures within { OnOk result (limit_of rec.now ≡ None) }
    ensures can { OnOk result (CanWrite rec.now) }
    ensures refused { IfErr result (Refuses rec.now) }
    ensures unchanged { OnErr result (out.new.items ≡ out.old.items) }
{
    match rows_over(rec) {
        Some(rows) => Err(WriteError::Limit {
            which: ROWS,
            found: rows as u64,
        }),
        None => write_rows(alloc, rec, out),
    }
}
