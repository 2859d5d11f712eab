//! The type in which a dependency seeks its members.

ghost use Rattle.std.specs.Prelude.{◌≡◌, IfOk};
ghost use Rattle.attr_blobs.specs.declared.name.NameRead.TheVariants as read;
ghost use Rattle.attr_blobs.specs.Values.{name_of_text};
ghost use Rattle.rules.specs.link_rules.Cycles.{listed};
ghost use Rattle.rules.specs.mark_rules.Dependencies.{owner_of_item, found_by_name, found_there, type_rows, text_there, sought_in};
ghost use Rattle.attribute_values.specs.dependency_forms.Told.{sought_told};
ghost use Rattle.mark_parts.specs.mark_tables.Assemblies.{all_of, IsMarker};
ghost use Rattle.mark_dependencies.specs.Lookups.{recs_in, field_owner, IsLookup};

use crate::lookup::Lookup;
use attr_blobs::{NameRead, TypeName};
use attribute_values::dependency_forms::dependency::Sought;
use descriptor_texts::name_texts::name_of_text;
use il_base::world_model::AsmRec;
use il_base::{AsmId, Item, NoMemory, Seq, Text, TypeId};
use mark_parts::mark_tables::marker::Marker;
use rules::link_rules::RowAt;
use std::alloc::Global;
use type_names::TypeNames;
use type_tables::member_search::homes::type_home;
use type_tables::methods::type_of_method;

/// The type that has a field.
#[tactic(auto, using(crate::proofs::Seeking::no_owner, crate::proofs::Seeking::owner_listed))]
fn owner_of_field(marker: &Marker<'_>, at: RowAt) -> Result<Option<RowAt>, NoMemory>
    requires { IsMarker marker.now }
    ensures { IfOk result (λ owner. listed owner ≡ field_owner (all_of marker.now) at) }
{
    let Some(asm) = marker.assembly_at(at.asm) else {
        return Ok(None);
    };
    match asm.owner_of_field(at.row) {
        Ok(Some(row)) => Ok(Some(RowAt { asm: at.asm, row })),
        Ok(None) => Ok(None),
        Err(error) => Err(error),
    }
}

/// The type that has a method or a field; other items have none here.
fn owner_of_item(marker: &Marker<'_>, item: Item, at: RowAt) -> Result<Option<RowAt>, NoMemory>
    requires { IsMarker marker.now }
    ensures { IfOk result (λ owner. listed owner ≡ owner_of_item (all_of marker.now) item at) }
{
    match item {
        Item::Method(_) => {
            let owner = type_of_method(&marker.tables, at)?;
            Ok(owner)
        }
        Item::Field(_) => owner_of_field(marker, at),
        Item::Asm(_) => Ok(None),
        Item::Typ(_) => Ok(None),
        Item::Prop(_) => Ok(None),
        Item::Event(_) => Ok(None),
        Item::Impl(_) => Ok(None),
    }
}

/// The type that a text names, found from an assembly, by its place from 0.
fn found_by_name(
    alloc: Global,
    names: &TypeNames<'_>,
    from: u32,
    text: &[u8],
) -> Result<Option<TypeId>, NoMemory>
    ensures { IfOk result (λ id. listed id ≡ found_by_name names.now from (name_of_text text.now)) }
{
    match name_of_text(alloc, text) {
        Ok(NameRead::Name(n)) => Ok(names.find_type(AsmId(from), &n)),
        Ok(NameRead::Other) => Ok(None),
        Ok(NameRead::Malformed) => Ok(None),
        Err(error) => Err(error),
    }
}

/// The type of a name without an assembly in the assembly of a simple name.
#[tactic(auto, unfolding(rules::specs::type_rules::Searches::find_type))]
fn type_there(
    alloc: Global,
    names: &TypeNames<'_>,
    asm: &[u8],
    n: TypeName,
) -> Result<Option<TypeId>, NoMemory>
    ensures { IfOk result (λ id. listed id ≡ found_there names.now asm.now (read.Name n)) }
{
    let TypeName { path, asm: named } = n;
    match named {
        Some(_) => Ok(None),
        None => {
            let name = TypeName {
                path,
                asm: Some(Seq::from_slice(alloc, asm)?),
            };
            Ok(names.find_type(AsmId(0), &name))
        }
    }
}

/// The type that a text without an assembly names, in the assembly of a simple name alone.
fn found_there(
    alloc: Global,
    names: &TypeNames<'_>,
    asm: &[u8],
    text: &[u8],
) -> Result<Option<TypeId>, NoMemory>
    ensures { IfOk result (λ id. listed id ≡ found_there names.now asm.now (name_of_text text.now)) }
{
    match name_of_text(alloc, text) {
        Ok(NameRead::Name(n)) => type_there(alloc, names, asm, n),
        Ok(NameRead::Other) => Ok(None),
        Ok(NameRead::Malformed) => Ok(None),
        Err(error) => Err(error),
    }
}

/// The type that a text names in an assembly that another text names; none where one is null.
fn text_there(
    alloc: Global,
    names: &TypeNames<'_>,
    text: &Option<Text>,
    asm: &Option<Text>,
) -> Result<Option<TypeId>, NoMemory>
    ensures { IfOk result (λ id. listed id ≡ text_there names.now text.now asm.now) }
{
    match text {
        None => Ok(None),
        Some(text) => match asm {
            None => Ok(None),
            Some(asm) => found_there(alloc, names, asm.as_slice(), text.as_slice()),
        },
    }
}

/// The row of a type that was found.
#[tactic(auto, using(crate::proofs::Seeking::one_row))]
fn type_row(all: &[AsmRec], id: Option<TypeId>) -> Result<Option<RowAt>, NoMemory>
    ensures { IfOk result (λ at. listed at ≡ type_rows all.now (listed id)) }
{
    match id {
        None => Ok(None),
        Some(id) => {
            let at = type_home(all, id)?;
            Ok(at)
        }
    }
}

/// The type in which members are sought, for a method or a field that depends on them.
pub(crate) fn sought_in(
    alloc: Global,
    lookup: &Lookup<'_, '_>,
    item: Item,
    at: RowAt,
    sought: &Sought,
) -> Result<Option<RowAt>, NoMemory>
    requires { IsLookup lookup.now }
    ensures { IfOk result (λ t. listed t ≡ sought_in (recs_in lookup.now) item at (sought_told sought.now)) }
{
    let marker = lookup.marker;
    match sought {
        Sought::OwnType => owner_of_item(marker, item, at),
        Sought::TypeArgument(text) => {
            let id = found_by_name(alloc, lookup.names, at.asm, text.as_slice())?;
            type_row(marker.tables.world.recs.as_slice(), id)
        }
        Sought::TypeText(text, asm) => {
            let id = text_there(alloc, lookup.names, text, asm)?;
            type_row(marker.tables.world.recs.as_slice(), id)
        }
    }
}
