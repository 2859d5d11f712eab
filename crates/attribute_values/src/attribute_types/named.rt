//! The types that texts name.

ghost use Rattle.std.specs.Prelude.{◌≡◌, ◌++◌, IfOk, OnOk};
ghost use Rattle.std.specs.List.{flat_map};
ghost use Rattle.rules.specs.link_rules.Cycles.{listed};
ghost use Rattle.rules.specs.mark_rules.Attributes.{found_by, type_named};

use crate::attribute_types::texts::name_of_text;
use attr_blobs::NameRead;
use il_base::{AsmId, NoMemory, Text, TypeId};
use std::alloc::Global;
use type_names::TypeNames;

/// The type that a name finds from an assembly, by its place from 0.
fn found_by(names: &TypeNames<'_>, from: u32, name: &NameRead) -> Option<TypeId>
    ensures { listed result ≡ found_by names.now from name.now }
{
    match name {
        NameRead::Name(n) => names.find_type(AsmId(from), n),
        NameRead::Other => None,
        NameRead::Malformed => None,
    }
}

/// The type that a text in UTF-8 names from an assembly, by its place from 0.
pub fn type_named(
    alloc: Global,
    names: &TypeNames<'_>,
    from: u32,
    text: &[u8],
) -> Result<Option<TypeId>, NoMemory>
    ensures { IfOk result (λ t. listed t ≡ type_named names.now from text.now) }
{
    let name = name_of_text(alloc, text)?;
    let found = found_by(names, from, &name);
    Ok(found)
}

/// Puts the type that a text names at the end.
#[tactic(auto, using(crate::proofs::lemmas::attribute_types::Lists::none_more))]
pub(crate) fn add_named(
    alloc: Global,
    names: &TypeNames<'_>,
    from: u32,
    text: &[u8],
    types: &mut Vec<TypeId>,
) -> Result<(), NoMemory>
    ensures { OnOk result (types.new.items ≡ types.old.items ++ type_named names.now from text.now) }
{
    match type_named(alloc, names, from, text) {
        Ok(Some(id)) => {
            types.push(id)?;
            Ok(())
        }
        Ok(None) => Ok(()),
        Err(error) => Err(error),
    }
}

/// Puts the type that a text names at the end; null names none.
#[tactic(auto, using(crate::proofs::lemmas::attribute_types::Lists::none_more))]
pub(crate) fn add_text(
    alloc: Global,
    names: &TypeNames<'_>,
    from: u32,
    text: &Option<Text>,
    types: &mut Vec<TypeId>,
) -> Result<(), NoMemory>
    ensures { OnOk result (types.new.items ≡ types.old.items ++ flat_map (type_named names.now from) (listed text.now)) }
{
    match text {
        Some(text) => add_named(alloc, names, from, text.as_slice(), types),
        None => Ok(()),
    }
}
