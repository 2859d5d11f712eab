//! The initializer of a type (II.10.5.3).

ghost use Rattle.std.specs.Prelude.{◌≡◌, ◌&&◌, codes, IfOk};
ghost use Rattle.std.specs.List.{position_from};
ghost use Rattle.il_base.specs.declared.world_model.known.Known.TheVariants as Known;
ghost use Rattle.il_base.specs.world_model.Core.{same_name};
ghost use Rattle.il_base.specs.world_model.Worlds.{known_then};
ghost use Rattle.rules.specs.link_rules.Signatures.{names_at, method_type};
ghost use Rattle.rules.specs.link_rules.Members.{run_of, find_in_run};
ghost use Rattle.rules.specs.type_rules.Slots.{is_static};
ghost use Rattle.rules.specs.type_rules.Initializers.{is_void, takes_and_gives_nothing, is_initializer, initializer_in, initializer};
ghost use Rattle.mark_parts.specs.mark_tables.Assemblies.{recs_of, place_of, rec_of, all_of, IsAssembly, IsMarker};

use crate::mark_tables::assembly::Assembly;
use crate::mark_tables::marker::Marker;
use il_base::world_model::{Known, MethodDefRow, TypeDefRow, TypeExpr};
use il_base::{MethodSig, NoMemory, has_flag, method_flags};
use rules::link_rules::{MethodType, RowAt};
use std::alloc::Global;
use type_tables::member_search::counted::sum;
use type_tables::member_search::method_types::open_method_type;

/// Whether a method is static, by its flags (II.23.1.10).
pub fn is_static(m: &MethodDefRow) -> bool
    ensures { result ≡ is_static m.now }
{
    has_flag(m.flags, method_flags::STATIC)
}

/// Whether a type is void, modifiers aside.
#[tactic(auto, using(crate::proofs::lemmas::mark_rows::VoidLayers::voids))]
pub(crate) fn is_void(ty: &TypeExpr) -> bool
    ensures { result ≡ is_void ty.now }
{
    match ty {
        TypeExpr::Prim(code) => *code == 1,
        TypeExpr::Def(_) => false,
        TypeExpr::Inst(_, _) => false,
        TypeExpr::Array(_) => false,
        TypeExpr::ByRef(_) => false,
        TypeExpr::Var(_) => false,
        TypeExpr::MVar(_) => false,
        TypeExpr::Mod { inner, .. } => is_void(inner.get()),
    }
}

/// Whether a method takes nothing, gives nothing and has no type parameters.
fn takes_nothing(m: &MethodType) -> bool
    ensures { result ≡ takes_and_gives_nothing (Known.Good m.now) }
{
    !m.this && m.generic == 0 && m.params.is_empty() && is_void(&m.ret)
}

/// Whether a signature takes nothing, gives nothing and has no type parameters.
fn is_plain(alloc: Global, asm: &Assembly<'_>, sig: &Known<MethodSig>) -> Result<bool, NoMemory>
    requires { IsAssembly asm.now }
    ensures { IfOk result (λ is. is ≡ takes_and_gives_nothing (known_then (method_type (names_at (recs_of asm.now) (place_of asm.now) (rec_of asm.now))) sig.now)) }
{
    match sig {
        Known::Bad(_) => Ok(false),
        Known::Good(sig) => match open_method_type(alloc, &asm.scope, sig) {
            Ok(Known::Good(ty)) => Ok(takes_nothing(&ty)),
            Ok(Known::Bad(_)) => Ok(false),
            Err(error) => Err(error),
        },
    }
}

/// Whether a method is named `.cctor` and is static.
fn is_named_so(m: &MethodDefRow) -> bool
    ensures { result ≡ (same_name m.now.name (codes ".cctor") && is_static m.now) }
{
    m.name.as_slice() == b".cctor".as_slice() && is_static(m)
}

/// Whether a method is a type's initializer.
fn is_initializer(alloc: Global, asm: &Assembly<'_>, m: &MethodDefRow) -> Result<bool, NoMemory>
    requires { IsAssembly asm.now }
    ensures { IfOk result (λ is. is ≡ is_initializer (recs_of asm.now) (place_of asm.now) (rec_of asm.now) m.now) }
{
    let named = is_named_so(m);
    if !named {
        return Ok(false);
    }
    is_plain(alloc, asm, &m.signature)
}

/// The methods of a run, which begins and ends at rows from 1.
pub(crate) fn run_of(rows: &[MethodDefRow], first: u32, end: u32) -> &[MethodDefRow]
    ensures { result.now ≡ run_of first end rows.now }
{
    let begin = first.saturating_sub(1) as usize;
    if begin > rows.len() {
        return &[];
    }
    let rest = &rows[begin..];
    let count = end.saturating_sub(first) as usize;
    if count > rest.len() {
        rest
    } else {
        &rest[..count]
    }
}

/// The row, from 0, of the first of these methods that is an initializer, where the first has the row `start`.
fn first_initializer(
    alloc: Global,
    asm: &Assembly<'_>,
    start: u32,
    run: &[MethodDefRow],
) -> Result<Option<u32>, NoMemory>
    requires { IsAssembly asm.now }
    ensures { IfOk result (λ row. row ≡ position_from (is_initializer (recs_of asm.now) (place_of asm.now) (rec_of asm.now)) start run.now) }
{
    for (k, m) in run.iter().enumerate() {
        match is_initializer(alloc, asm, m) {
            Ok(true) => {
                let row = sum(start, k)?;
                return Ok(Some(row));
            }
            Ok(false) => {}
            Err(error) => return Err(error),
        }
    }
    Ok(None)
}

/// The row, from 0, of the initializer of a type.
fn initializer_row(
    alloc: Global,
    asm: &Assembly<'_>,
    t: &TypeDefRow,
) -> Result<Option<u32>, NoMemory>
    requires { IsAssembly asm.now }
    ensures { IfOk result (λ row. row ≡ find_in_run (is_initializer (recs_of asm.now) (place_of asm.now) (rec_of asm.now)) t.now.method_list_first t.now.method_list_end (rec_of asm.now).method_def) }
{
    let methods = asm.scope.rec.method_def.as_slice();
    let run = run_of(methods, t.method_list_first, t.method_list_end);
    let start = t.method_list_first.saturating_sub(1);
    let row = first_initializer(alloc, asm, start, run)?;
    Ok(row)
}

/// The initializer of a type in a row of an assembly.
fn initializer_in(
    alloc: Global,
    asm: &Assembly<'_>,
    at: RowAt,
    t: &TypeDefRow,
) -> Result<Option<RowAt>, NoMemory>
    requires is { IsAssembly asm.now }
    requires place { place_of asm.now ≡ at.asm }
    ensures { IfOk result (λ found. found ≡ initializer_in (recs_of asm.now) at (rec_of asm.now) t.now) }
{
    match initializer_row(alloc, asm, t) {
        Ok(Some(row)) => Ok(Some(RowAt { asm: at.asm, row })),
        Ok(None) => Ok(None),
        Err(error) => Err(error),
    }
}

/// The initializer of a type: the first method of its run that is named `.cctor`, is static, takes and gives nothing.
#[tactic(auto, unfolding(rules::specs::type_rules::Initializers::initializer))]
pub fn initializer(alloc: Global, marker: &Marker<'_>, at: RowAt) -> Result<Option<RowAt>, NoMemory>
    requires { IsMarker marker.now }
    ensures { IfOk result (λ found. found ≡ initializer (all_of marker.now) at) }
{
    let Some(asm) = marker.assembly_at(at.asm) else {
        return Ok(None);
    };
    let Some(t) = asm.scope.rec.type_def.get(at.row as usize) else {
        return Ok(None);
    };
    initializer_in(alloc, &asm, at, t)
}
