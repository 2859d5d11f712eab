//! The items that the value of an attribute marks.

ghost use Rattle.std.specs.Prelude.{◌≡◌, ◌++◌, OnOk};
ghost use Rattle.rules.specs.mark_rules.Naming.{mark_types};
ghost use Rattle.rules.specs.mark_rules.Attributes as attributes;
ghost use Rattle.rules.specs.mark_rules.Attributes.{value_facts};
ghost use Rattle.attribute_values.specs.attribute_kinds.Sites.{recs_in, place_in};
ghost use Rattle.attribute_values.specs.Readers.{IsReader};

use attr_blobs::AttrValue;
use attribute_values::attribute_types::values::value_types;
use attribute_values::reader::Reader;
use il_base::world_model::MethodUse;
use il_base::{Item, NoMemory, TypeId};
use mark_items::mark_named::named::add_members;
use mark_parts::mark_facts::facts::Facts;
use std::alloc::Global;
use type_names::TypeNames;

/// Marks types.
fn add_types(types: &[TypeId], facts: &mut Facts) -> Result<(), NoMemory>
    ensures { OnOk result (facts.new ≡ facts.old ++ mark_types types.now) }
{
    for id in types {
        facts.mark(Item::Typ(*id))?;
    }
    Ok(())
}

/// Marks the types that a value names, found from an assembly, by its place from 0.
fn add_value_types(
    alloc: Global,
    names: &TypeNames<'_>,
    from: u32,
    v: &AttrValue,
    facts: &mut Facts,
) -> Result<(), NoMemory>
    ensures { OnOk result (facts.new ≡ facts.old ++ mark_types (attributes.value_types names.now from v.now)) }
{
    let types = value_types(alloc, names, from, v)?;
    add_types(types.as_slice(), facts)?;
    Ok(())
}

/// Marks the fields and setters that a value names, and the types in it; `used` is the attribute's constructor.
pub(crate) fn add_value(
    alloc: Global,
    reader: &Reader<'_>,
    used: &MethodUse,
    v: &AttrValue,
    facts: &mut Facts,
) -> Result<(), NoMemory>
    requires { IsReader reader.now }
    ensures { OnOk result (facts.new ≡ facts.old ++ value_facts (recs_in reader.now.site) (place_in reader.now.site) used.now v.now) }
{
    add_members(
        alloc,
        reader.site.marker,
        &used.owner,
        v.named.as_slice(),
        facts,
    )?;
    add_value_types(alloc, reader.names, reader.site.asm.scope.asm, v, facts)?;
    Ok(())
}
