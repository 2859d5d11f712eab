//! Method bodies and where they are (II.25.4).

ghost use Rattle.std.specs.Prelude.{◌≡◌, ◌+◌, ◌%◌, ◌<◌, ◌^◌, [], length, map, All, IfOk, OnOk};
ghost use Rattle.il_base.specs.body_grammar.BodySpelling.{HasSpelling};
ghost use Rattle.rules.specs.file_layout.Bytes.{aligned};
ghost use Rattle.rules.specs.file_layout.Bodies as layout;
ghost use Rattle.record_writer.specs.CanWrite.{HasBody};

use crate::byte_writer::{next_multiple, pad};
use crate::image_writer::CODE_RVA;
use il_base::world_model::{Known, MethodDefRow};
use il_base::{Body, NoMemory};
use il_code::write_body;
use std::alloc::Global;

/// The bodies of methods, and their addresses.
#[derive(Drop)]
pub struct Bodies {
    /// The bodies in the order of their methods, each at a multiple of 4.
    pub bytes: Vec<u8>,
    /// The RVA of each method's body, 0 for none.
    pub rvas: Vec<u32>,
}

/// The RVA of a body that is put after so many bytes.
fn rva_behind(len: usize) -> u32
    requires { len < 2 ^ 63 }
    ensures { result ≡ (0x2050 + aligned 4 len) % 4294967296 }
{
    ((CODE_RVA + next_multiple(4, len as u64)) % 0x1_0000_0000) as u32
}

/// Puts a body after the others.
#[tactic(auto, unfolding(rules::specs::file_layout::Bodies::body_behind))]
fn put_body(out: &mut Vec<u8>, body: &Body) -> Result<(), NoMemory>
    requires { HasSpelling body.now }
    ensures { OnOk result (out.new.items ≡ layout.body_behind out.old.items body.now) }
{
    pad(out, 4)?;
    write_body(body, out)
}

/// Puts the body of a method, where it has one, and gives its RVA.
fn put_method(out: &mut Vec<u8>, body: &Option<Known<Body>>) -> Result<u32, NoMemory>
    requires { HasBody body.now }
    ensures bytes { OnOk result (out.new.items ≡ layout.behind out.old.items body.now) }
    ensures rva { IfOk result (λ rva. rva ≡ layout.rva_at (length out.old.items) body.now) }
{
    match body {
        None => Ok(0),
        Some(Known::Bad(_)) => Ok(0),
        Some(Known::Good(body)) => {
            let rva = rva_behind(out.len());
            put_body(out, body)?;
            Ok(rva)
        }
    }
}

/// The bodies of methods, in their order.
#[tactic(auto, unfolding(rules::specs::file_layout::Bodies::code_behind, rules::specs::file_layout::Bodies::rvas_behind))]
pub fn put_bodies(alloc: Global, methods: &[MethodDefRow]) -> Result<Bodies, NoMemory>
    requires { All (λ m. HasBody m.body) methods.now }
    ensures bytes { IfOk result (λ c. c.bytes.items ≡ layout.code_behind [] (map (λ m. m.body) methods.now)) }
    ensures rvas { IfOk result (λ c. c.rvas.items ≡ layout.rvas_behind [] (map (λ m. m.body) methods.now)) }
{
    let mut bytes = Vec::new(alloc);
    let mut rvas = Vec::new(alloc);
    for method in methods {
        rvas.push(put_method(&mut bytes, &method.body)?)?;
    }
    Ok(Bodies { bytes, rvas })
}
