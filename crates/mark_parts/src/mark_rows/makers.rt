//! The constructor by which reflection makes an object (II.10.5.1).

ghost use Rattle.std.specs.Prelude.{◌≡◌, ◌&&◌, codes, not, IfOk};
ghost use Rattle.std.specs.List.{position_from};
ghost use Rattle.il_base.specs.declared.world_model.known.Known.TheVariants as Known;
ghost use Rattle.il_base.specs.world_model.Core.{same_name};
ghost use Rattle.il_base.specs.world_model.Worlds.{known_then};
ghost use Rattle.rules.specs.link_rules.Signatures.{names_at, method_type};
ghost use Rattle.rules.specs.link_rules.Members.{find_in_run};
ghost use Rattle.rules.specs.type_rules.Slots.{is_public, is_static};
ghost use Rattle.rules.specs.type_rules.Makers.{takes_this_alone, is_maker, maker_in, maker};
ghost use Rattle.mark_parts.specs.mark_tables.Assemblies.{recs_of, place_of, rec_of, all_of, IsAssembly, IsMarker};

use crate::mark_rows::initializers::{is_static, is_void, run_of};
use crate::mark_tables::assembly::Assembly;
use crate::mark_tables::marker::Marker;
use il_base::world_model::{Known, MethodDefRow, TypeDefRow};
use il_base::{MethodSig, NoMemory, access_of, method_flags};
use rules::link_rules::{MethodType, RowAt};
use std::alloc::Global;
use type_tables::member_search::counted::sum;
use type_tables::member_search::method_types::open_method_type;

/// Whether a method takes `this` alone, gives nothing and has no type parameters.
fn takes_this(m: &MethodType) -> bool
    ensures { result ≡ takes_this_alone (Known.Good m.now) }
{
    m.this && m.generic == 0 && m.params.is_empty() && is_void(&m.ret)
}

/// Whether a signature takes `this` alone, gives nothing and has no type parameters.
fn is_plain(alloc: Global, asm: &Assembly<'_>, sig: &Known<MethodSig>) -> Result<bool, NoMemory>
    requires { IsAssembly asm.now }
    ensures { IfOk result (λ is. is ≡ takes_this_alone (known_then (method_type (names_at (recs_of asm.now) (place_of asm.now) (rec_of asm.now))) sig.now)) }
{
    match sig {
        Known::Bad(_) => Ok(false),
        Known::Good(sig) => match open_method_type(alloc, &asm.scope, sig) {
            Ok(Known::Good(ty)) => Ok(takes_this(&ty)),
            Ok(Known::Bad(_)) => Ok(false),
            Err(error) => Err(error),
        },
    }
}

/// Whether a method is public, by its flags (II.23.1.10).
fn is_public(m: &MethodDefRow) -> bool
    ensures { result ≡ is_public m.now }
{
    access_of(m.flags) == method_flags::PUBLIC
}

/// Whether a method is named `.ctor`, is public and of instances.
fn is_named_so(m: &MethodDefRow) -> bool
    ensures { result ≡ (same_name m.now.name (codes ".ctor") && is_public m.now && not (is_static m.now)) }
{
    m.name.as_slice() == b".ctor".as_slice() && is_public(m) && !is_static(m)
}

/// Whether reflection makes objects by a method.
fn is_maker(alloc: Global, asm: &Assembly<'_>, m: &MethodDefRow) -> Result<bool, NoMemory>
    requires { IsAssembly asm.now }
    ensures { IfOk result (λ is. is ≡ is_maker (recs_of asm.now) (place_of asm.now) (rec_of asm.now) m.now) }
{
    let named = is_named_so(m);
    if !named {
        return Ok(false);
    }
    is_plain(alloc, asm, &m.signature)
}

/// The row, from 0, of the first of these methods by which reflection makes objects, where the first has the row `start`.
fn first_maker(
    alloc: Global,
    asm: &Assembly<'_>,
    start: u32,
    run: &[MethodDefRow],
) -> Result<Option<u32>, NoMemory>
    requires { IsAssembly asm.now }
    ensures { IfOk result (λ row. row ≡ position_from (is_maker (recs_of asm.now) (place_of asm.now) (rec_of asm.now)) start run.now) }
{
    for (k, m) in run.iter().enumerate() {
        match is_maker(alloc, asm, m) {
            Ok(true) => {
                let row = sum(start, k)?;
                return Ok(Some(row));
            }
            Ok(false) => {}
            Err(error) => return Err(error),
        }
    }
    Ok(None)
}

/// The same for the methods of a type.
fn maker_row(alloc: Global, asm: &Assembly<'_>, t: &TypeDefRow) -> Result<Option<u32>, NoMemory>
    requires { IsAssembly asm.now }
    ensures { IfOk result (λ row. row ≡ find_in_run (is_maker (recs_of asm.now) (place_of asm.now) (rec_of asm.now)) t.now.method_list_first t.now.method_list_end (rec_of asm.now).method_def) }
{
    let methods = asm.scope.rec.method_def.as_slice();
    let run = run_of(methods, t.method_list_first, t.method_list_end);
    let start = t.method_list_first.saturating_sub(1);
    let row = first_maker(alloc, asm, start, run)?;
    Ok(row)
}

/// The constructor of a type in a row of an assembly.
fn maker_in(
    alloc: Global,
    asm: &Assembly<'_>,
    at: RowAt,
    t: &TypeDefRow,
) -> Result<Option<RowAt>, NoMemory>
    requires is { IsAssembly asm.now }
    requires place { place_of asm.now ≡ at.asm }
    ensures { IfOk result (λ found. found ≡ maker_in (recs_of asm.now) at (rec_of asm.now) t.now) }
{
    match maker_row(alloc, asm, t) {
        Ok(Some(row)) => Ok(Some(RowAt { asm: at.asm, row })),
        Ok(None) => Ok(None),
        Err(error) => Err(error),
    }
}

/// The constructor by which reflection makes objects of a type: the first public one of its run that takes `this` alone.
#[tactic(auto, unfolding(rules::specs::type_rules::Makers::maker))]
pub fn maker(alloc: Global, marker: &Marker<'_>, at: RowAt) -> Result<Option<RowAt>, NoMemory>
    requires { IsMarker marker.now }
    ensures { IfOk result (λ found. found ≡ maker (all_of marker.now) at) }
{
    let Some(asm) = marker.assembly_at(at.asm) else {
        return Ok(None);
    };
    let Some(t) = asm.scope.rec.type_def.get(at.row as usize) else {
        return Ok(None);
    };
    maker_in(alloc, &asm, at, t)
}
