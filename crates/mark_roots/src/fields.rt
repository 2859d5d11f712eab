//! Fields that a member element names.

ghost use Rattle.std.specs.Prelude.{◌≡◌, ◌++◌, ◌∷◌, [], map, IfOk, OnOk};
ghost use Rattle.std.specs.List.{filter, list_any};
ghost use Rattle.il_base.specs.world_model.Worlds.{known_then, sig_expr};
ghost use Rattle.rules.specs.link_rules.Cycles.{listed};
ghost use Rattle.rules.specs.link_rules.Signatures.{names_at};
ghost use Rattle.rules.specs.type_rules.Rows.{fields_of_type};
ghost use Rattle.rules.specs.mark_rules.Places.{marks_field};
ghost use Rattle.rules.specs.mark_rules.Annotations.{good_expr};
ghost use Rattle.rules.specs.mark_rules.Roots.{field_fits, fits_field};
ghost use Rattle.mark_parts.specs.mark_tables.Assemblies.{recs_of, place_of, rec_of, IsAssembly};
ghost use Rattle.descriptor_texts.specs.slashed_names.Names.{AreNames};
ghost use Rattle.mark_roots.specs.Lookups.{recs_in, fields_fit_by, field_fits_in, IsLookup};

use crate::lookup::Lookup;
use descriptor_file::RootMember;
use descriptor_texts::sig_texts::members::field_text;
use descriptor_texts::sig_texts::spelling::{Owners, Spelling};
use descriptor_texts::slashed_names::names::SlashedNames;
use il_base::world_model::{FieldRow, Known, TypeExpr, token_of};
use il_base::{NoMemory, table};
use mark_members::mark_whole::members::mark_fields;
use mark_parts::mark_facts::facts::Facts;
use mark_parts::mark_rows::members::fields_of_type;
use mark_parts::mark_tables::assembly::Assembly;
use rules::link_rules::RowAt;
use std::alloc::Global;
use type_tables::member_search::method_types::open_type;

/// The type of a field, where its signature is good.
fn field_type(alloc: Global, asm: &Assembly<'_>, f: &FieldRow) -> Result<Option<TypeExpr>, NoMemory>
    requires { IsAssembly asm.now }
    ensures { IfOk result (λ ty. listed ty ≡ good_expr (known_then (sig_expr (names_at (recs_of asm.now) (place_of asm.now) (rec_of asm.now))) f.now.signature)) }
{
    match &f.signature {
        Known::Bad(_) => Ok(None),
        Known::Good(sig) => match open_type(alloc, &asm.scope, sig) {
            Ok(Known::Good(ty)) => Ok(Some(ty)),
            Ok(Known::Bad(_)) => Ok(None),
            Err(error) => Err(error),
        },
    }
}

/// Whether the text of a field of this type is the one that a member element has.
fn has_text_with(
    alloc: Global,
    names: &SlashedNames,
    asm: &Assembly<'_>,
    r: &RootMember,
    t: RowAt,
    f: &FieldRow,
    ty: &TypeExpr,
) -> Result<bool, NoMemory>
    requires asm { IsAssembly asm.now }
    requires names { AreNames (recs_of asm.now) names.now }
    requires ty { ty.now ∷ [] ≡ good_expr (known_then (sig_expr (names_at (recs_of asm.now) (place_of asm.now) (rec_of asm.now))) f.now.signature) }
    ensures { IfOk result (λ is. is ≡ fields_fit_by (recs_of asm.now) (place_of asm.now) (rec_of asm.now) r.now t f.now) }
{
    let typ = token_of(table::TYPE_DEF, t.row as usize)?;
    let spelling = Spelling {
        names,
        asm: *asm,
        owners: Owners { typ, method: 0 },
    };
    let text = field_text(alloc, &spelling, f.name.as_slice(), ty)?;
    Ok(text.as_slice() == r.text.as_slice())
}

/// Whether the text of a field is the one that a member element has.
fn has_text(
    alloc: Global,
    names: &SlashedNames,
    asm: &Assembly<'_>,
    r: &RootMember,
    t: RowAt,
    f: &FieldRow,
) -> Result<bool, NoMemory>
    requires asm { IsAssembly asm.now }
    requires names { AreNames (recs_of asm.now) names.now }
    ensures { IfOk result (λ is. is ≡ fields_fit_by (recs_of asm.now) (place_of asm.now) (rec_of asm.now) r.now t f.now) }
{
    let found = field_type(alloc, asm, f)?;
    match found {
        Some(ty) => {
            let is = has_text_with(alloc, names, asm, r, t, f, &ty)?;
            Ok(is)
        }
        None => Ok(false),
    }
}

/// Whether a member element names a field, by its signature or its name.
fn field_fits(
    alloc: Global,
    names: &SlashedNames,
    asm: &Assembly<'_>,
    r: &RootMember,
    t: RowAt,
    at: RowAt,
    f: &FieldRow,
) -> Result<bool, NoMemory>
    requires asm { IsAssembly asm.now }
    requires names { AreNames (recs_of asm.now) names.now }
    requires place { place_of asm.now ≡ at.asm }
    ensures { IfOk result (λ is. is ≡ field_fits (recs_of asm.now) r.now t at (rec_of asm.now) f.now) }
{
    if r.by_signature {
        return has_text(alloc, names, asm, r, t, f);
    }
    Ok(f.name.as_slice() == r.text.as_slice())
}

/// Whether an assembly has a field, and a member element names it.
fn fits_in(
    alloc: Global,
    names: &SlashedNames,
    asm: &Assembly<'_>,
    r: &RootMember,
    t: RowAt,
    at: RowAt,
) -> Result<bool, NoMemory>
    requires asm { IsAssembly asm.now }
    requires names { AreNames (recs_of asm.now) names.now }
    requires place { place_of asm.now ≡ at.asm }
    ensures { IfOk result (λ is. is ≡ field_fits_in (recs_of asm.now) r.now t at (rec_of asm.now)) }
{
    match asm.scope.rec.field.get(at.row as usize) {
        Some(f) => {
            let fits = field_fits(alloc, names, asm, r, t, at, f)?;
            Ok(fits)
        }
        None => Ok(false),
    }
}

/// Whether a field is there, and a member element names it.
fn fits_field(
    alloc: Global,
    lookup: &Lookup<'_, '_>,
    r: &RootMember,
    t: RowAt,
    at: RowAt,
) -> Result<bool, NoMemory>
    requires { IsLookup lookup.now }
    ensures { IfOk result (λ is. is ≡ fits_field (recs_in lookup.now) r.now t at) }
{
    let marker = lookup.marker;
    let Some(asm) = marker.assembly_at(at.asm) else {
        return Ok(false);
    };
    let fits = fits_in(alloc, lookup.names, &asm, r, t, at)?;
    Ok(fits)
}

/// Those of these fields that a member element names.
fn fitting(
    alloc: Global,
    lookup: &Lookup<'_, '_>,
    r: &RootMember,
    t: RowAt,
    rows: &[RowAt],
) -> Result<Vec<RowAt>, NoMemory>
    requires { IsLookup lookup.now }
    ensures { IfOk result (λ found. found.items ≡ filter (fits_field (recs_in lookup.now) r.now t) rows.now) }
{
    let mut found = Vec::new(alloc);
    for at in rows {
        let is = fits_field(alloc, lookup, r, t, *at)?;
        if is {
            found.push(*at)?;
        }
    }
    Ok(found)
}

/// Marks the fields of a type that a member element names.
pub(crate) fn add_fields(
    alloc: Global,
    lookup: &Lookup<'_, '_>,
    t: RowAt,
    r: &RootMember,
    facts: &mut Facts,
) -> Result<(), NoMemory>
    requires { IsLookup lookup.now }
    ensures { OnOk result (facts.new ≡ facts.old ++ map (marks_field (recs_in lookup.now)) (filter (fits_field (recs_in lookup.now) r.now t) (fields_of_type (recs_in lookup.now) t))) }
{
    let marker = lookup.marker;
    let rows = fields_of_type(alloc, marker, t)?;
    let found = fitting(alloc, lookup, r, t, rows.as_slice())?;
    mark_fields(marker.tables.world.recs.as_slice(), found.as_slice(), facts)
}
