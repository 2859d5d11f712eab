//! CustomAttribute rows.

ghost use Rattle.std.specs.Prelude.{◌≡◌, map, IfOk};
ghost use Rattle.reference_rows.specs.key_tokens.Keys.{AreKeyTokens};
ghost use Rattle.restrict.specs.merged_attributes.Attributes.{told, row_by};

use crate::merged_attributes::attributes::Attribute;
use il_base::world_model::CustomAttributeRow;
use il_base::{NoMemory, Seq};
use reference_rows::key_tokens::KeyTokens;
use std::alloc::Global;

/// The row of an attribute.
fn attribute_row(
    alloc: Global,
    keys: &KeyTokens<'_>,
    attribute: &Attribute,
) -> Result<CustomAttributeRow, NoMemory>
    requires { AreKeyTokens keys.now }
    ensures { IfOk result (λ row. row ≡ row_by keys.now (told attribute.now)) }
{
    let ctor = keys.of_method(alloc, &attribute.ctor)?;
    let value = Seq::from_slice(alloc, attribute.value.as_slice())?;
    Ok(CustomAttributeRow {
        parent: attribute.parent,
        ctor,
        value,
    })
}

/// The rows of attributes, in their order.
pub fn attribute_rows(
    alloc: Global,
    keys: &KeyTokens<'_>,
    attributes: &[Attribute],
) -> Result<Seq<CustomAttributeRow>, NoMemory>
    requires { AreKeyTokens keys.now }
    ensures { IfOk result (λ rows. rows ≡ map (row_by keys.now) (map told attributes.now)) }
{
    let mut rows = Seq::new(alloc);
    for attribute in attributes {
        let row = attribute_row(alloc, keys, attribute)?;
        rows.push(row)?;
    }
    Ok(rows)
}
