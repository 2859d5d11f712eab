ghost use Rattle.std.specs.Prelude.{◌≡◌, ℕ, ◌+◌, ◌≤◌, ◌<◌, ◌^◌, ◌++◌, List, length, take, drop, Ok, IfOk};
ghost use Rattle.il_base.specs.body_grammar.Bodies as grammar;
ghost use Rattle.il_base.specs.body_grammar.BodySpelling.{IsSpelledBy};
ghost use Rattle.il_base.specs.declared.body.Body.{Body};
ghost use Rattle.il_code.specs.Gives.{Gives, whole};

use crate::error::{BodyError, ReadBody};
use crate::header::read_header;
use crate::instructions::code;
use crate::section::handlers;
use il_base::body_grammar::{BODY, Header};
use il_base::{Body, Handler, Instr, Seq};
use std::alloc::Global;

/// The next multiple of 4.
fn aligned(n: usize) -> usize
    requires { n < 2 ^ 33 }
    ensures { result ≡ grammar.aligned n }
{
    (n + 3) / 4 * 4
}

/// A body of these parts.
fn made(h: Header, code: Seq<Instr>, fat_handlers: bool, handlers: Seq<Handler>) -> Body
    ensures { result ≡ grammar.made h code fat_handlers handlers }
{
    Body {
        tiny: h.tiny,
        init: h.init,
        max_stack: h.max_stack,
        locals: h.locals,
        code,
        fat_handlers,
        handlers,
    }
}

/// The size of a header in bytes.
fn header_size(tiny: bool) -> u32
    ensures { result ≡ grammar.header_size tiny }
{
    if tiny { 1 } else { 12 }
}

/// The bytes of the code after a header, as far as they are there.
fn code_bytes(h: Header, bytes: &[u8]) -> &[u8]
    requires { grammar.header_size h.tiny ≤ length bytes.now }
    ensures { result.now ≡ take h.size (drop (grammar.header_size h.tiny) bytes.now) }
{
    let rest = &bytes[header_size(h.tiny) as usize..];
    let size = h.size as usize;
    if rest.len() < size {
        rest
    } else {
        &rest[..size]
    }
}

/// A body of this header and code, which ends at `end`, with its handler section if it has one.
fn with_handlers(
    alloc: Global,
    h: Header,
    code: Seq<Instr>,
    end: u32,
    bytes: &[u8],
) -> Result<ReadBody, BodyError>
    requires { length bytes.now < 2 ^ 32 }
    ensures { Gives whole result (grammar.with_handlers h code end bytes.now) }
{
    if !h.sects {
        return Ok(ReadBody {
            body: made(h, code, false, Seq::new(alloc)),
            length: end,
        });
    }
    let at = aligned(end as usize);
    let (fat, handlers, length) = handlers(alloc, code.as_slice(), h.size, at, bytes)?;
    Ok(ReadBody {
        body: made(h, code, fat, handlers),
        length,
    })
}

/// The body at the front, by the grammar's reading.
#[tactic(auto, unfolding(il_base::specs::body_grammar::Bodies::body_at))]
fn body(alloc: Global, bytes: &[u8]) -> Result<ReadBody, BodyError>
    requires { length bytes.now < 2 ^ 32 }
    ensures { Gives whole result (grammar.body_at bytes.now) }
{
    let h = read_header(bytes)?;
    let from = header_size(h.tiny);
    let code = code(alloc, from, code_bytes(h, bytes))?;
    let end = u64::from(from) + u64::from(h.size);
    if (bytes.len() as u64) < end {
        return Err(BodyError::Bad {
            at: bytes.len() as u32,
            what: BODY,
        });
    }
    let body = with_handlers(alloc, h, code, end as u32, bytes)?;
    Ok(body)
}

/// The method body at the front of the bytes (II.25.4), and how many bytes it takes; others may stand after it.
///
/// `BodyError::Bad` comes exactly where no body is spelled there, with the first fault; `BodyError::NoMemory` where
/// the allocator refuses.
pub fn read_body(alloc: Global, bytes: &[u8]) -> Result<ReadBody, BodyError>
    requires { length bytes.now < 2 ^ 32 }
    // What is read is spelled so.
    ensures found { IfOk result (λ r. IsSpelledBy (take r.length bytes.now) r.body × (r.length ≤ length bytes.now)) }
    // What is spelled so is read, unless memory runs out.
    ensures only { (text : List ℕ) (b : Body) (rest : List ℕ) → IsSpelledBy text b → bytes.now ≡ text ++ rest
        → Gives whole result (Ok (b, length text)) }
    // Which fault it is.
    ensures exact { Gives whole result (grammar.body_at bytes.now) }
{
    body(alloc, bytes)
}
