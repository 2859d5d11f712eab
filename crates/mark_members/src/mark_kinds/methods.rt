//! Constructors and methods by kinds (II.10.5.1).

ghost use Rattle.std.specs.Prelude.{◌≡◌, ◌++◌, IfOk, OnOk};
ghost use Rattle.std.specs.List.{filter, flat_map};
ghost use Rattle.rules.specs.mark_rules.Members.{is_any_constructor, is_parameterless_sig, constructor_counts, method_counts, has_method_row, constructors_by, methods_by};
ghost use Rattle.mark_parts.specs.mark_tables.Assemblies.{all_of, IsMarker};
ghost use Rattle.mark_members.specs.mark_kinds.Kinds.{constructor_access, methods_from};

use crate::mark_kinds::counts::{counts, is_public_access, pair};
use crate::mark_kinds::lineage::lineage;
use crate::mark_whole::methods::is_constructor;
use il_base::world_model::{AsmRec, Known, MethodDefRow};
use il_base::{MethodSig, NoMemory, has_type_flag};
use mark_parts::mark_rows::members::methods_of_type;
use mark_parts::mark_tables::marker::Marker;
use rules::link_rules::RowAt;
use rules::mark_rules::member_kinds;
use std::alloc::Global;
use type_tables::methods::method_row_at;
use virtual_calls::impls::same_row;

/// Whether a signature has neither parameters nor generic parameters.
fn is_parameterless(sig: &Known<MethodSig>) -> bool
    ensures { result ≡ is_parameterless_sig sig.now }
{
    match sig {
        Known::Good(s) => s.params.is_empty() && s.generic == 0,
        Known::Bad(_) => false,
    }
}

/// Whether kinds name such a constructor.
fn has_access(kinds: u32, m: &MethodDefRow) -> bool
    ensures { result ≡ constructor_access kinds m.now }
{
    if !is_public_access(m.flags) {
        return has_type_flag(kinds, member_kinds::NON_PUBLIC_CONSTRUCTORS);
    }
    if is_parameterless(&m.signature) {
        return has_type_flag(kinds, member_kinds::PUBLIC_PARAMETERLESS_CONSTRUCTOR);
    }
    has_type_flag(kinds, member_kinds::OTHER_PUBLIC_CONSTRUCTORS)
}

/// Whether a method is there, and a constructor that kinds name.
fn constructor_counts_at(all: &[AsmRec], kinds: u32, at: RowAt) -> bool
    ensures { result ≡ has_method_row all.now (constructor_counts kinds) at }
{
    match method_row_at(all, at) {
        Some(m) => is_constructor(m) && has_access(kinds, m),
        None => false,
    }
}

/// Those of these methods that are constructors which kinds name.
fn constructors_among(
    alloc: Global,
    all: &[AsmRec],
    kinds: u32,
    rows: &[RowAt],
) -> Result<Vec<RowAt>, NoMemory>
    ensures { IfOk result (λ found. found.items ≡ filter (has_method_row all.now (constructor_counts kinds)) rows.now) }
{
    let mut found = Vec::new(alloc);
    for at in rows {
        if constructor_counts_at(all, kinds, *at) {
            found.push(*at)?;
        }
    }
    Ok(found)
}

/// The constructors of a type itself that kinds name.
#[tactic(auto, unfolding(rules::specs::mark_rules::Members::constructors_by))]
pub fn constructors_by(
    alloc: Global,
    marker: &Marker<'_>,
    kinds: u32,
    t: RowAt,
) -> Result<Vec<RowAt>, NoMemory>
    requires { IsMarker marker.now }
    ensures { IfOk result (λ rows. rows.items ≡ constructors_by (all_of marker.now) kinds t) }
{
    let rows = methods_of_type(alloc, marker, t)?;
    let found = constructors_among(
        alloc,
        marker.tables.world.recs.as_slice(),
        kinds,
        rows.as_slice(),
    )?;
    Ok(found)
}

/// Whether a method is a constructor or named `.cctor`. A static method named `.ctor` is a method as any other.
fn is_any_constructor(m: &MethodDefRow) -> bool
    ensures { result ≡ is_any_constructor m.now }
{
    is_constructor(m) || m.name.as_slice() == b".cctor".as_slice()
}

/// Whether a method is there, no constructor, and counts.
fn method_counts_at(all: &[AsmRec], own: bool, two: u32, at: RowAt) -> bool
    ensures { result ≡ has_method_row all.now (method_counts own two) at }
{
    match method_row_at(all, at) {
        Some(m) => !is_any_constructor(m) && counts(own, two, m.flags),
        None => false,
    }
}

/// Adds those of these methods that count.
fn add_counted(
    all: &[AsmRec],
    own: bool,
    two: u32,
    rows: &[RowAt],
    found: &mut Vec<RowAt>,
) -> Result<(), NoMemory>
    ensures { OnOk result (found.new.items ≡ found.old.items ++ filter (has_method_row all.now (method_counts own two)) rows.now) }
{
    for at in rows {
        if method_counts_at(all, own, two, *at) {
            found.push(*at)?;
        }
    }
    Ok(())
}

/// Adds the methods of a type, or of one of its bases, that count.
fn add_methods_from(
    alloc: Global,
    marker: &Marker<'_>,
    t: RowAt,
    two: u32,
    c: RowAt,
    found: &mut Vec<RowAt>,
) -> Result<(), NoMemory>
    requires { IsMarker marker.now }
    ensures { OnOk result (found.new.items ≡ found.old.items ++ methods_from (all_of marker.now) t two c) }
{
    let rows = methods_of_type(alloc, marker, c)?;
    add_counted(
        marker.tables.world.recs.as_slice(),
        same_row(t, c),
        two,
        rows.as_slice(),
        found,
    )
}

/// The methods of a type and of these bases that count.
fn methods_along(
    alloc: Global,
    marker: &Marker<'_>,
    t: RowAt,
    two: u32,
    types: &[RowAt],
) -> Result<Vec<RowAt>, NoMemory>
    requires { IsMarker marker.now }
    ensures { IfOk result (λ rows. rows.items ≡ flat_map (methods_from (all_of marker.now) t two) types.now) }
{
    let mut found = Vec::new(alloc);
    for c in types {
        add_methods_from(alloc, marker, t, two, *c, &mut found)?;
    }
    Ok(found)
}

/// The methods of a type and its bases that kinds name, without constructors.
#[tactic(auto, unfolding(rules::specs::mark_rules::Members::methods_by))]
pub fn methods_by(
    alloc: Global,
    marker: &Marker<'_>,
    kinds: u32,
    t: RowAt,
) -> Result<Vec<RowAt>, NoMemory>
    requires { IsMarker marker.now }
    ensures { IfOk result (λ rows. rows.items ≡ methods_by (all_of marker.now) kinds t) }
{
    let two = pair(
        kinds,
        member_kinds::PUBLIC_METHODS,
        member_kinds::NON_PUBLIC_METHODS,
    );
    let types = lineage(alloc, marker, t)?;
    let found = methods_along(alloc, marker, t, two, types.as_slice())?;
    Ok(found)
}
