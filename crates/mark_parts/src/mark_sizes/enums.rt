//! The size of an enum: that of the type of its first instance field (II.14.3).

ghost use Rattle.std.specs.Prelude.{◌≡◌, IfOk};
ghost use Rattle.std.specs.List.{flat_map};
ghost use Rattle.il_base.specs.world_model.Worlds.{known_then, sig_expr};
ghost use Rattle.rules.specs.link_rules.Signatures.{names_at};
ghost use Rattle.rules.specs.link_rules.Cycles.{listed, is_static_field};
ghost use Rattle.rules.specs.mark_rules.Attributes.{expr_size, first_size, field_size, enum_size};
ghost use Rattle.mark_parts.specs.mark_tables.Assemblies.{recs_of, place_of, rec_of, all_of, IsAssembly, IsMarker};
ghost use Rattle.mark_parts.specs.mark_sizes.Sizes.{size_by};

use crate::mark_rows::members::fields_of_type;
use crate::mark_sizes::prims::expr_size;
use crate::mark_tables::assembly::Assembly;
use crate::mark_tables::marker::Marker;
use il_base::world_model::{FieldRow, Known};
use il_base::{NoMemory, Sig, field_flags, has_flag};
use rules::link_rules::RowAt;
use std::alloc::Global;
use type_tables::member_search::method_types::open_type;

/// Whether a field is static, by its flags (II.23.1.5).
fn is_static(f: &FieldRow) -> bool
    ensures { result ≡ is_static_field f.now }
{
    has_flag(f.flags, field_flags::STATIC)
}

/// The size of a signature's type in bytes.
fn sig_size(alloc: Global, asm: &Assembly<'_>, sig: &Known<Sig>) -> Result<u8, NoMemory>
    requires { IsAssembly asm.now }
    ensures { IfOk result (λ n. n ≡ expr_size (known_then (sig_expr (names_at (recs_of asm.now) (place_of asm.now) (rec_of asm.now))) sig.now)) }
{
    match sig {
        Known::Bad(_) => Ok(4),
        Known::Good(sig) => {
            let ty = open_type(alloc, &asm.scope, sig)?;
            Ok(expr_size(&ty))
        }
    }
}

/// The size of a field's type in bytes; None for a static field.
fn size_by(alloc: Global, asm: &Assembly<'_>, f: &FieldRow) -> Result<Option<u8>, NoMemory>
    requires { IsAssembly asm.now }
    ensures { IfOk result (λ n. listed n ≡ size_by (recs_of asm.now) (place_of asm.now) (rec_of asm.now) f.now) }
{
    let stands = is_static(f);
    if stands {
        return Ok(None);
    }
    let n = sig_size(alloc, asm, &f.signature)?;
    Ok(Some(n))
}

/// The size of a field's type in bytes; None for a static field, and for one that isn't there.
#[tactic(auto, using(crate::proofs::lemmas::mark_sizes::Lists::none_more))]
fn field_size(alloc: Global, marker: &Marker<'_>, at: RowAt) -> Result<Option<u8>, NoMemory>
    requires { IsMarker marker.now }
    ensures { IfOk result (λ n. listed n ≡ field_size (all_of marker.now) at) }
{
    let Some(asm) = marker.assembly_at(at.asm) else {
        return Ok(None);
    };
    let Some(f) = asm.scope.rec.field.get(at.row as usize) else {
        return Ok(None);
    };
    let n = size_by(alloc, &asm, f)?;
    Ok(n)
}

/// The size of the first of these fields that is an instance's, in bytes; 4 without one.
fn first_size(alloc: Global, marker: &Marker<'_>, rows: &[RowAt]) -> Result<u8, NoMemory>
    requires { IsMarker marker.now }
    ensures { IfOk result (λ n. n ≡ first_size (flat_map (field_size (all_of marker.now)) rows.now)) }
{
    for at in rows {
        match field_size(alloc, marker, *at) {
            Ok(Some(n)) => return Ok(n),
            Ok(None) => {}
            Err(error) => return Err(error),
        }
    }
    Ok(4)
}

/// The size of an enum's underlying type in bytes: that of its first instance field.
#[tactic(auto, unfolding(rules::specs::mark_rules::Attributes::enum_size))]
pub fn enum_size(alloc: Global, marker: &Marker<'_>, at: RowAt) -> Result<u8, NoMemory>
    requires { IsMarker marker.now }
    ensures { IfOk result (λ n. n ≡ enum_size (all_of marker.now) at) }
{
    let rows = fields_of_type(alloc, marker, at)?;
    let n = first_size(alloc, marker, rows.as_slice())?;
    Ok(n)
}
