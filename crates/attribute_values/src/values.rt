//! The values of rows of CustomAttribute.

ghost use Rattle.std.specs.Prelude.{◌≡◌, IfOk};
ghost use Rattle.rules.specs.mark_rules.Attributes.{read_value, value_of};
ghost use Rattle.attribute_values.specs.attribute_kinds.Sites.{recs_in, place_in, rec_in};
ghost use Rattle.attribute_values.specs.Readers.{IsReader};

use crate::attribute_kinds::constructors::constructor_kinds;
use crate::reader::Reader;
use attr_blobs::{AttrError, AttrValue, EnumSize, ParamKind, read_attribute};
use il_base::world_model::CustomAttributeRow;
use il_base::{NoMemory, Seq};
use std::alloc::Global;

/// The value that a blob spells; None where it spells none.
fn read_value(
    alloc: Global,
    enums: &Seq<EnumSize>,
    blob: &[u8],
    kinds: &Seq<ParamKind>,
) -> Result<Option<AttrValue>, NoMemory>
    ensures { IfOk result (λ v. v ≡ read_value enums.now blob.now kinds.now) }
{
    match read_attribute(alloc, blob, kinds, enums) {
        Ok(v) => Ok(Some(v)),
        Err(AttrError::Bad { .. }) => Ok(None),
        Err(AttrError::NoMemory) => Err(NoMemory),
    }
}

/// The value of a row of CustomAttribute of the reader's assembly; None where it has no reading.
#[tactic(auto, unfolding(rules::specs::mark_rules::Attributes::value_of))]
pub fn value_of(
    alloc: Global,
    reader: &Reader<'_>,
    row: &CustomAttributeRow,
) -> Result<Option<AttrValue>, NoMemory>
    requires { IsReader reader.now }
    ensures { IfOk result (λ v. v ≡ value_of (recs_in reader.now.site) (place_in reader.now.site) (rec_in reader.now.site) row.now) }
{
    match constructor_kinds(alloc, &reader.site, row.ctor) {
        Ok(Some(kinds)) => read_value(alloc, reader.enums, row.value.as_slice(), &kinds),
        Ok(None) => Ok(None),
        Err(error) => Err(error),
    }
}
