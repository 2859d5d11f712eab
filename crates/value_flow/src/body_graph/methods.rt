//! Methods with their bodies.

ghost use Rattle.std.specs.Prelude.{◌≡◌, Some, slice_get, IfOk, IfSome};
ghost use Rattle.std.specs.Option.{option_map};
ghost use Rattle.rules.specs.link_rules.Linked.{IsWorld};
ghost use Rattle.rules.specs.flow_rules.Methods.{locals_row, locals_in, with_body, setting_at, setting_of};
ghost use Rattle.value_flow.specs.body_graph.Methods.{setting_in, IsHere};

use crate::body_graph::signatures::called_at;
use il_base::world_model::{AsmRec, Known, StandAloneSigRow, World, index_in};
use il_base::{Body, MethodId, NoMemory, table};
use rules::flow_rules::Called;
use rules::link_rules::RowAt;
use type_tables::member_search::linked::assembly_at;
use type_tables::methods::method_home;

/// A method of a world whose body, signature and locals have a reading.
#[derive(Clone, Copy)]
pub struct Method<'w> {
    pub world: &'w World,
    /// Its assembly, from 0.
    pub asm: u32,
    pub rec: &'w AsmRec,
    pub own: Called,
    /// How many locals it has.
    pub locals: usize,
    pub body: &'w Body,
}

fn locals_row(row: &StandAloneSigRow) -> Option<usize>
    ensures { result ≡ locals_row (Some row.now) }
{
    match &row.signature {
        Known::Good(sigs) => Some(sigs.len()),
        Known::Bad(_) => None,
    }
}

/// How many locals a body has, by the token of their signature.
#[tactic(auto, unfolding(rules::specs::flow_rules::Methods::locals_in))]
fn locals_in(rec: &AsmRec, token: u32) -> Option<usize>
    ensures { result ≡ locals_in rec.now token }
{
    if token == 0 {
        return Some(0);
    }
    let Some(at) = index_in(table::STAND_ALONE_SIG as u8, token) else {
        return None;
    };
    let Some(row) = rec.stand_alone_sig.get(at as usize) else {
        return None;
    };
    locals_row(row)
}

fn with_body<'w>(
    world: &'w World,
    at: RowAt,
    rec: &'w AsmRec,
    body: &'w Option<Known<Body>>,
) -> Option<Method<'w>>
    requires world { IsWorld world.now }
    requires here { slice_get world.now.recs at.asm ≡ Some rec.now }
    ensures is { option_map setting_in result ≡ with_body world.now.recs at rec.now body.now }
    ensures here { IfSome result IsHere }
    ensures same { IfSome result (λ m. m.world.now ≡ world.now) }
{
    let Some(Known::Good(body)) = body else {
        return None;
    };
    let Some(own) = called_at(world, at) else {
        return None;
    };
    let Some(locals) = locals_in(rec, body.locals) else {
        return None;
    };
    Some(Method {
        world,
        asm: at.asm,
        rec,
        own,
        locals,
        body,
    })
}

/// The method of a row. None where its body, its signature or its locals have no reading, or where there is no such row.
pub fn method_at<'w>(world: &'w World, at: RowAt) -> Option<Method<'w>>
    requires { IsWorld world.now }
    ensures is { option_map setting_in result ≡ setting_at world.now.recs at }
    ensures here { IfSome result IsHere }
    ensures same { IfSome result (λ m. m.world.now ≡ world.now) }
{
    let Some(rec) = assembly_at(world.recs.as_slice(), at.asm) else {
        return None;
    };
    let Some(row) = rec.method_def.get(at.row as usize) else {
        return None;
    };
    with_body(world, at, rec, &row.body)
}

/// A method of a world that a link gave. None where its body, its signature or its locals have no reading, or where there is no
/// such method.
#[tactic(auto, unfolding(rules::specs::flow_rules::Methods::setting_of))]
pub fn method_of<'w>(world: &'w World, m: MethodId) -> Result<Option<Method<'w>>, NoMemory>
    requires { IsWorld world.now }
    ensures is { IfOk result (λ found. option_map setting_in found ≡ setting_of world.now.recs m) }
    ensures here { IfOk result (λ found. IfSome found IsHere) }
    ensures same { IfOk result (λ found. IfSome found (λ m. m.world.now ≡ world.now)) }
{
    match method_home(world.recs.as_slice(), m) {
        Err(error) => Err(error),
        Ok(None) => Ok(None),
        Ok(Some(at)) => Ok(method_at(world, at)),
    }
}
