//! The addresses of method bodies.

ghost use Rattle.std.specs.Prelude.{◌≡◌, ◌%◌, ◌^◌, ◌<◌, IfOk};
ghost use Rattle.rules.specs.file_layout.Bytes as layout;
ghost use Rattle.rules.specs.file_layout.Bodies as bodies;
ghost use Rattle.rules.specs.merge_rules.Restricted.{put_rva};
ghost use Rattle.merge_plan.specs.method_places.Places.{size_behind, ArePlaced};

use crate::method_places::lengths::body_size;
use il_base::world_model::{Known, MethodDefRow};
use il_base::{Body, NoMemory, Seq};
use std::alloc::Global;

/// The next multiple of 4.
#[tactic(auto, unfolding(rules::specs::file_layout::Bytes::aligned))]
fn aligned(n: u64) -> u64
    requires { n < 2 ^ 32 }
    ensures exact { result ≡ layout.aligned 4 n }
    ensures small { result < 2 ^ 33 }
{
    (n + 3) / 4 * 4
}

/// The address of a body after so many bytes of bodies, 0 for none.
fn rva_at(before: u64, body: &Option<Known<Body>>) -> u32
    requires { before < 2 ^ 32 }
    ensures { result ≡ bodies.rva_at before body.now }
{
    match body {
        None => 0,
        Some(Known::Good(_)) => ((0x2050 + aligned(before)) % 0x1_0000_0000) as u32,
        Some(Known::Bad(_)) => 0,
    }
}

/// How many bytes the bodies take with one more body, modulo 2^32.
fn size_behind(before: u64, body: &Option<Known<Body>>) -> u64
    requires { before < 2 ^ 32 }
    ensures exact { result ≡ size_behind before body.now % 4294967296 }
    ensures small { result < 2 ^ 32 }
{
    match body {
        None => before,
        Some(Known::Good(body)) => {
            (aligned(before) + u64::from(body_size(body))) % 0x1_0000_0000
        }
        Some(Known::Bad(_)) => before,
    }
}

/// A row with its address.
fn with_rva(rva: u32, row: MethodDefRow) -> MethodDefRow
    ensures { result ≡ put_rva rva row }
{
    MethodDefRow {
        rva,
        impl_flags: row.impl_flags,
        flags: row.flags,
        name: row.name,
        signature: row.signature,
        param_list_first: row.param_list_first,
        param_list_end: row.param_list_end,
        body: row.body,
        bad_at: row.bad_at,
    }
}

/// Methods with the addresses of their bodies.
#[derive(Drop)]
pub struct Placed {
    pub rows: Seq<MethodDefRow>,
    /// How many bytes the bodies take, modulo 2^32.
    pub size: u64,
}

/// The rows with the addresses of their bodies, each after those before it, at a multiple of 4.
#[tactic(auto, unfolding(crate::specs::method_places::Places::rows_from, crate::specs::method_places::Places::size_from))]
pub fn placed_methods(alloc: Global, rows: Seq<MethodDefRow>) -> Result<Placed, NoMemory>
    ensures { IfOk result (ArePlaced rows) }
{
    let mut size = 0;
    let mut done = Seq::new(alloc);
    for row in rows.into_vec() {
        let rva = rva_at(size, &row.body);
        size = size_behind(size, &row.body);
        done.push(with_rva(rva, row))?;
    }
    Ok(Placed { rows: done, size })
}
