//! Methods that a member element names.

ghost use Rattle.std.specs.Prelude.{◌≡◌, ◌++◌, ◌∷◌, [], IfOk, OnOk};
ghost use Rattle.std.specs.List.{filter, flat_map, list_any};
ghost use Rattle.rules.specs.link_rules.Cycles.{listed};
ghost use Rattle.rules.specs.type_rules.Rows.{rec_at, methods_of_type};
ghost use Rattle.rules.specs.type_rules.Slots.{type_of_row};
ghost use Rattle.rules.specs.mark_rules.Dependencies.{good_signatures};
ghost use Rattle.rules.specs.mark_rules.Roots.{method_owners, has_method_text, method_fits, fits_method, keeps_method};
ghost use Rattle.descriptor_texts.specs.sig_texts.Spelled.{owners_told};
ghost use Rattle.mark_roots.specs.Lookups.{recs_in, IsLookup};

use crate::lookup::Lookup;
use descriptor_file::RootMember;
use descriptor_texts::sig_texts::members::method_text;
use descriptor_texts::sig_texts::spelling::{Owners, Spelling};
use il_base::world_model::{MethodDefRow, token_of};
use il_base::{NoMemory, table};
use mark_members::called_members::signatures::good_signature;
use mark_members::mark_whole::methods::keep_methods;
use mark_parts::mark_facts::facts::Facts;
use mark_parts::mark_rows::members::methods_of_type;
use rules::link_rules::{MethodType, RowAt};
use std::alloc::Global;
use type_tables::methods::method_row_at;

/// The owners of the generic parameters in a method's signature: its type and itself.
fn method_owners(t: RowAt, at: RowAt) -> Result<Owners, NoMemory>
    ensures { IfOk result (λ o. owners_told o ≡ method_owners t at) }
{
    let typ = token_of(table::TYPE_DEF, t.row as usize)?;
    let method = token_of(table::METHOD_DEF, at.row as usize)?;
    Ok(Owners { typ, method })
}

/// Whether the text of a method with this signature is the one that a member element has.
fn has_text_with(
    alloc: Global,
    lookup: &Lookup<'_, '_>,
    r: &RootMember,
    t: RowAt,
    at: RowAt,
    m: &MethodDefRow,
    ty: &MethodType,
) -> Result<bool, NoMemory>
    requires lookup { IsLookup lookup.now }
    requires ty { good_signatures (type_of_row (recs_in lookup.now) at) ≡ ty.now ∷ [] }
    ensures { IfOk result (λ is. is ≡ list_any (has_method_text (recs_in lookup.now) r.now t at m.now) (listed (rec_at (recs_in lookup.now) at))) }
{
    let marker = lookup.marker;
    let Some(asm) = marker.assembly_at(at.asm) else {
        return Ok(false);
    };
    let owners = method_owners(t, at)?;
    let spelling = Spelling {
        names: lookup.names,
        asm,
        owners,
    };
    let text = method_text(alloc, &spelling, m.name.as_slice(), ty)?;
    Ok(text.as_slice() == r.text.as_slice())
}

/// Whether the text of a method is the one that a member element has.
fn has_text(
    alloc: Global,
    lookup: &Lookup<'_, '_>,
    r: &RootMember,
    t: RowAt,
    at: RowAt,
    m: &MethodDefRow,
) -> Result<bool, NoMemory>
    requires { IsLookup lookup.now }
    ensures { IfOk result (λ is. is ≡ list_any (has_method_text (recs_in lookup.now) r.now t at m.now) (listed (rec_at (recs_in lookup.now) at))) }
{
    let found = good_signature(alloc, lookup.marker, at)?;
    match found {
        Some(ty) => {
            let is = has_text_with(alloc, lookup, r, t, at, m, &ty)?;
            Ok(is)
        }
        None => Ok(false),
    }
}

/// Whether a member element names a method, by its signature or its name.
fn method_fits(
    alloc: Global,
    lookup: &Lookup<'_, '_>,
    r: &RootMember,
    t: RowAt,
    at: RowAt,
    m: &MethodDefRow,
) -> Result<bool, NoMemory>
    requires { IsLookup lookup.now }
    ensures { IfOk result (λ is. is ≡ method_fits (recs_in lookup.now) r.now t at m.now) }
{
    if r.by_signature {
        return has_text(alloc, lookup, r, t, at, m);
    }
    Ok(m.name.as_slice() == r.text.as_slice())
}

/// Whether a method is there, and a member element names it.
fn fits_method(
    alloc: Global,
    lookup: &Lookup<'_, '_>,
    r: &RootMember,
    t: RowAt,
    at: RowAt,
) -> Result<bool, NoMemory>
    requires { IsLookup lookup.now }
    ensures { IfOk result (λ is. is ≡ fits_method (recs_in lookup.now) r.now t at) }
{
    let marker = lookup.marker;
    match method_row_at(marker.tables.world.recs.as_slice(), at) {
        Some(m) => method_fits(alloc, lookup, r, t, at, m),
        None => Ok(false),
    }
}

/// Those of these methods that a member element names.
fn fitting(
    alloc: Global,
    lookup: &Lookup<'_, '_>,
    r: &RootMember,
    t: RowAt,
    rows: &[RowAt],
) -> Result<Vec<RowAt>, NoMemory>
    requires { IsLookup lookup.now }
    ensures { IfOk result (λ found. found.items ≡ filter (fits_method (recs_in lookup.now) r.now t) rows.now) }
{
    let mut found = Vec::new(alloc);
    for at in rows {
        let is = fits_method(alloc, lookup, r, t, *at)?;
        if is {
            found.push(*at)?;
        }
    }
    Ok(found)
}

/// Keeps the methods of a type that a member element names, all overloads.
pub(crate) fn add_methods(
    alloc: Global,
    lookup: &Lookup<'_, '_>,
    t: RowAt,
    r: &RootMember,
    facts: &mut Facts,
) -> Result<(), NoMemory>
    requires { IsLookup lookup.now }
    ensures { OnOk result (facts.new ≡ facts.old ++ flat_map (keeps_method (recs_in lookup.now) t) (filter (fits_method (recs_in lookup.now) r.now t) (methods_of_type (recs_in lookup.now) t))) }
{
    let marker = lookup.marker;
    let rows = methods_of_type(alloc, marker, t)?;
    let found = fitting(alloc, lookup, r, t, rows.as_slice())?;
    keep_methods(
        marker.tables.world.recs.as_slice(),
        t,
        found.as_slice(),
        facts,
    )
}
