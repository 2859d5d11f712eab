//! Method bodies as parts of rows (II.25.4): a body, or why there is none and where.

ghost use Rattle.std.specs.Prelude.{◌≡◌, ◌<◌, ◌^◌, IfOk, Some, length};
ghost use Rattle.il_base.specs.body_grammar.Bodies.{body_at, header_at};
ghost use Rattle.rules.specs.record_format.Parts as parts;
ghost use Rattle.world_reader.specs.row_reader.Faults.{OfBodies};

use crate::cell_reader::Assembly;
use crate::row_reader::faults::{Fault, Faults};
use il_base::body_grammar::{BODY, Header};
use il_base::world_model::{BadKind, Known};
use il_base::{Body, NoMemory};
use il_code::{BodyError, ReadBody, read_body, read_header};
use std::alloc::Global;

/// The body at an RVA, with the place of its fault.
#[derive(Drop)]
pub struct FoundBody {
    /// None where the RVA is 0.
    pub body: Option<Known<Body>>,
    /// The IL offset of a bad body's fault, 0 otherwise.
    pub bad_at: u32,
}

/// The IL offset of the byte with a number from the start of a body, 0 where that byte isn't one of the code.
fn offset_behind(header: Header, at: u32) -> u32
    ensures { result ≡ parts.offset_behind header at }
{
    let start = if header.tiny { 1u32 } else { 12 };
    if start <= at && u64::from(at) < u64::from(start) + u64::from(header.size) {
        at - start
    } else {
        0
    }
}

/// The IL offset of a fault at a byte of a body, counted from its start.
fn offset_of(bytes: &[u8], at: u32) -> u32
    requires { length bytes.now < 2 ^ 32 }
    ensures { result ≡ parts.offset_by (header_at bytes.now) at }
{
    match read_header(bytes) {
        Ok(header) => offset_behind(header, at),
        Err(_) => 0,
    }
}

/// The body at the front of the bytes.
fn body_in(alloc: Global, bytes: &[u8]) -> Result<FoundBody, NoMemory>
    requires { length bytes.now < 2 ^ 32 }
    ensures { IfOk result (λ f. (f.body ≡ Some (parts.body_of_reading (body_at bytes.now))) × (f.bad_at ≡ parts.fault_offset bytes.now (body_at bytes.now))) }
{
    match read_body(alloc, bytes) {
        Ok(ReadBody { body, length: _ }) => Ok(FoundBody {
            body: Some(Known::Good(body)),
            bad_at: 0,
        }),
        Err(BodyError::Bad { at, what }) => Ok(FoundBody {
            body: Some(Known::Bad(BadKind::Outside(what))),
            bad_at: offset_of(bytes, at),
        }),
        Err(BodyError::NoMemory) => Err(NoMemory),
    }
}

/// Reads the body at an RVA.
#[tactic(auto, unfolding(rules::specs::record_format::Parts::body_by, rules::specs::record_format::Parts::bad_offset))]
fn body_by(alloc: Global, file: &Assembly, rva: u32) -> Result<FoundBody, NoMemory>
    ensures { IfOk result (λ f. (f.body ≡ parts.body_by file.now rva) × (f.bad_at ≡ parts.bad_offset file.now rva)) }
{
    if rva == 0 {
        return Ok(FoundBody {
            body: None,
            bad_at: 0,
        });
    }
    match file.tail(rva) {
        Some(bytes) => body_in(alloc, bytes),
        None => Ok(FoundBody {
            body: Some(Known::Bad(BadKind::Outside(BODY))),
            bad_at: 0,
        }),
    }
}

/// The body at an RVA. A body whose fault is known isn't read again.
#[tactic(auto)]
pub fn body_of(
    alloc: Global,
    file: &Assembly,
    faults: &mut Faults,
    rva: u32,
) -> Result<FoundBody, NoMemory>
    requires { OfBodies file.now faults.old }
    ensures { IfOk result (λ f. (f.body ≡ parts.body_by file.now rva) × (f.bad_at ≡ parts.bad_offset file.now rva) × OfBodies file.now faults.new) }
{
    if let Some(fault) = faults.get(rva) {
        return Ok(FoundBody {
            body: Some(Known::Bad(fault.why)),
            bad_at: fault.at,
        });
    }
    let found = body_by(alloc, file, rva)?;
    if let Some(Known::Bad(why)) = &found.body {
        let fault = Fault {
            why: *why,
            at: found.bad_at,
        };
        faults.put(rva, fault)?;
    }
    Ok(found)
}
