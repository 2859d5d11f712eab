//! A method of a row.

ghost use Rattle.std.specs.Prelude.{◌≡◌, Some, IfOk};
ghost use Rattle.rules.specs.link_rules.Types.{at_row};
ghost use Rattle.mark_parts.specs.mark_tables.Assemblies.{recs_of, place_of, rec_of, all_of, IsAssembly, IsMarker};
ghost use Rattle.rules.specs.view_rules.Methods.{body_by, method_at};
ghost use Rattle.cil_world.specs.world_methods.Bodies.{body_in, method_in};

use crate::world_code::code::code_of;
use crate::world_methods::outside::{is_bad_there, is_core, is_global, is_platform};
use crate::world_methods::signatures::{is_constructor, signature_of, type_place};
use il_base::cil_values::{Code, Method};
use il_base::world_model::{BadKind, Known, MethodDefRow};
use il_base::{Body, NoMemory, outside};
use mark_parts::mark_tables::assembly::Assembly;
use mark_parts::mark_tables::marker::Marker;
use rules::link_rules::RowAt;
use rules::view_rules::seen_flags;
use std::alloc::Global;
use type_tables::methods::type_of_method;

/// A body with its references resolved, or why it has no meaning.
fn body_by(alloc: Global, asm: &Assembly<'_>, body: &Known<Body>) -> Result<Known<Code>, NoMemory>
    requires { IsAssembly asm.now }
    ensures { IfOk result (λ b. b ≡ body_by (recs_of asm.now) (place_of asm.now) (rec_of asm.now) body.now) }
{
    match body {
        Known::Bad(why) => Ok(Known::Bad(*why)),
        Known::Good(body) => {
            let code = code_of(alloc, asm, body)?;
            Ok(Known::Good(code))
        }
    }
}

/// The body of a method of a type, by its row from 0. One outside the profile counts as bad, and the core library's have none.
fn body_in(
    alloc: Global,
    asm: &Assembly<'_>,
    row: u32,
    owner: RowAt,
    m: &MethodDefRow,
) -> Result<Option<Known<Code>>, NoMemory>
    requires { IsAssembly asm.now }
    ensures { IfOk result (λ b. b ≡ body_in (recs_of asm.now) (at_row (place_of asm.now) row) (rec_of asm.now) (Some owner) m.now) }
{
    if is_core(asm) {
        return Ok(None);
    }
    if is_platform(m) {
        return Ok(Some(Known::Bad(BadKind::Outside(outside::PLATFORM))));
    }
    if is_bad_there(asm.scope.linked.all, Some(owner), m) {
        return Ok(Some(Known::Bad(BadKind::Outside(outside::INTERFACE_BODY))));
    }
    if is_global(asm.scope.linked.all, Some(owner)) {
        return Ok(Some(Known::Bad(BadKind::Outside(outside::GLOBAL_MEMBER))));
    }
    match &m.body {
        None => Ok(None),
        Some(body) => {
            let body = body_by(alloc, asm, body)?;
            Ok(Some(body))
        }
    }
}

/// A method of a type, by its row from 0.
fn method_in(
    alloc: Global,
    asm: &Assembly<'_>,
    row: u32,
    owner: RowAt,
    m: &MethodDefRow,
) -> Result<Method, NoMemory>
    requires { IsAssembly asm.now }
    ensures { IfOk result (λ made. made ≡ method_in (recs_of asm.now) (at_row (place_of asm.now) row) (rec_of asm.now) m.now owner (Some owner)) }
{
    let place = type_place(asm.scope.linked.all, owner)?;
    let signature = signature_of(alloc, asm, &m.signature)?;
    let body = body_in(alloc, asm, row, owner, m)?;
    Ok(Method {
        flags: m.flags & seen_flags::METHOD,
        owner: place,
        constructor: is_constructor(m),
        signature,
        body,
    })
}

/// The method of a row of an assembly. None for a row that isn't there, and for one that no type's run holds.
pub fn method_at(alloc: Global, marker: &Marker<'_>, at: RowAt) -> Result<Option<Method>, NoMemory>
    requires { IsMarker marker.now }
    ensures { IfOk result (λ m. m ≡ method_at (all_of marker.now) at) }
{
    let Some(asm) = marker.assembly_at(at.asm) else {
        return Ok(None);
    };
    let Some(m) = asm.scope.rec.method_def.get(at.row as usize) else {
        return Ok(None);
    };
    match type_of_method(&marker.tables, at) {
        Err(error) => Err(error),
        Ok(None) => Ok(None),
        Ok(Some(owner)) => {
            let made = method_in(alloc, &asm, at.row, owner, m)?;
            Ok(Some(made))
        }
    }
}
