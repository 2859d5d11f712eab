//! Methods of a type that have a name.

ghost use Rattle.std.specs.Prelude.{◌≡◌, ◌++◌, IfOk, OnOk};
ghost use Rattle.std.specs.List.{filter, list_any, flat_map};
ghost use Rattle.il_base.specs.world_model.Core.{same_name};
ghost use Rattle.rules.specs.link_rules.Cycles.{listed};
ghost use Rattle.rules.specs.type_rules.Rows.{methods_of_type};
ghost use Rattle.rules.specs.mark_rules.Dependencies.{doc_name, has_doc_name, is_method_called, with_made, methods_called};
ghost use Rattle.mark_dependencies.specs.Names.{is_row_called};
ghost use Rattle.mark_dependencies.specs.Lookups.{recs_in, IsLookup};

use crate::lookup::Lookup;
use crate::names::{has_parameters, plain};
use descriptor_texts::doc_texts::doc_name;
use il_base::NoMemory;
use il_base::world_model::MethodDefRow;
use mark_members::called_members::signatures::good_signature;
use mark_members::mark_whole::methods::keep_methods;
use mark_parts::mark_facts::facts::Facts;
use mark_parts::mark_rows::members::methods_of_type;
use rules::link_rules::{MethodType, RowAt};
use std::alloc::Global;
use type_names::TypeNames;
use type_tables::methods::method_row_at;

/// Whether a name is that of a method with the texts of its parameters.
fn is_doc_name(
    alloc: Global,
    names: &TypeNames<'_>,
    wanted: &[u8],
    name: &[u8],
    m: &MethodType,
) -> Result<bool, NoMemory>
    ensures { IfOk result (λ is. is ≡ list_any (same_name wanted.now) (listed (doc_name names.now name.now m.now))) }
{
    let found = doc_name(alloc, names, name, m)?;
    match found {
        Some(text) => Ok(wanted == text.as_slice()),
        None => Ok(false),
    }
}

/// Whether a name is that of a method, which has this name alone, with the texts of its parameters.
fn has_doc_name(
    alloc: Global,
    lookup: &Lookup<'_, '_>,
    wanted: &[u8],
    at: RowAt,
    name: &[u8],
) -> Result<bool, NoMemory>
    requires { IsLookup lookup.now }
    ensures { IfOk result (λ is. is ≡ has_doc_name (recs_in lookup.now) wanted.now at name.now) }
{
    let found = good_signature(alloc, lookup.marker, at)?;
    match found {
        Some(ty) => {
            let is = is_doc_name(alloc, lookup.names, wanted, name, &ty)?;
            Ok(is)
        }
        None => Ok(false),
    }
}

/// Whether a method has this name, maybe with parameters.
fn is_row_called(
    alloc: Global,
    lookup: &Lookup<'_, '_>,
    name: &[u8],
    at: RowAt,
    m: &MethodDefRow,
) -> Result<bool, NoMemory>
    requires { IsLookup lookup.now }
    ensures { IfOk result (λ is. is ≡ is_row_called (recs_in lookup.now) name.now at m.now) }
{
    let parameters = has_parameters(name);
    if parameters {
        return has_doc_name(alloc, lookup, name, at, m.name.as_slice());
    }
    Ok(m.name.as_slice() == name)
}

/// Whether a method is there, and has this name.
fn is_method_called(
    alloc: Global,
    lookup: &Lookup<'_, '_>,
    name: &[u8],
    at: RowAt,
) -> Result<bool, NoMemory>
    requires { IsLookup lookup.now }
    ensures { IfOk result (λ is. is ≡ is_method_called (recs_in lookup.now) name.now at) }
{
    let marker = lookup.marker;
    match method_row_at(marker.tables.world.recs.as_slice(), at) {
        Some(m) => is_row_called(alloc, lookup, name, at, m),
        None => Ok(false),
    }
}

/// Those of these methods that have this name.
fn called_among(
    alloc: Global,
    lookup: &Lookup<'_, '_>,
    name: &[u8],
    rows: &[RowAt],
) -> Result<Vec<RowAt>, NoMemory>
    requires { IsLookup lookup.now }
    ensures { IfOk result (λ found. found.items ≡ filter (is_method_called (recs_in lookup.now) name.now) rows.now) }
{
    let mut found = Vec::new(alloc);
    for at in rows {
        let is = is_method_called(alloc, lookup, name, *at)?;
        if is {
            found.push(*at)?;
        }
    }
    Ok(found)
}

/// Marks the methods of a type that have this name; a constructor makes the type instantiated.
pub(crate) fn add_methods(
    alloc: Global,
    lookup: &Lookup<'_, '_>,
    name: &[u8],
    t: RowAt,
    facts: &mut Facts,
) -> Result<(), NoMemory>
    requires { IsLookup lookup.now }
    ensures { OnOk result (facts.new ≡ facts.old ++ methods_called (recs_in lookup.now) name.now t) }
{
    let marker = lookup.marker;
    let rows = methods_of_type(alloc, marker, t)?;
    let name = plain(alloc, name)?;
    let found = called_among(alloc, lookup, name.as_slice(), rows.as_slice())?;
    keep_methods(
        marker.tables.world.recs.as_slice(),
        t,
        found.as_slice(),
        facts,
    )
}
