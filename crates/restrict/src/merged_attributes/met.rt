//! What attributes refer to.

ghost use Rattle.std.specs.Prelude.{◌≡◌, ◌++◌, map, OnOk};
ghost use Rattle.restrict.specs.merged_attributes.Attributes.{told, met_by};

use crate::merged_attributes::attributes::Attribute;
use il_base::NoMemory;
use std::alloc::Global;
use token_keys::key_copies::keys::copy_method_key;
use token_keys::met_forms::Mets;

/// Meets the constructors of attributes, in their order.
pub fn meet_attributes(
    alloc: Global,
    attributes: &[Attribute],
    mets: &mut Mets,
) -> Result<(), NoMemory>
    ensures { OnOk result (mets.new ≡ mets.old ++ map met_by (map told attributes.now)) }
{
    for attribute in attributes {
        let ctor = copy_method_key(alloc, &attribute.ctor)?;
        mets.push_method(ctor)?;
    }
    Ok(())
}
