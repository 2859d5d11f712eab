//! The attributes of trimming by their names.

ghost use Rattle.std.specs.Prelude.{◌≡◌, IfOk};
ghost use Rattle.rules.specs.mark_rules.Annotations.{is_called, dynamically_accessed, requires_unreferenced, dynamic_dependency};
ghost use Rattle.attribute_values.specs.attribute_kinds.Sites.{rec_in, IsSite};

use crate::attribute_kinds::site::Site;
use crate::trimming_attributes::texts::is_called;
use il_base::NoMemory;
use il_base::world_model::CustomAttributeRow;

/// Whether a row annotates a value with the kinds of members that reflection may ask for.
pub fn is_dynamically_accessed(site: &Site<'_>, row: &CustomAttributeRow) -> Result<bool, NoMemory>
    requires { IsSite site.now }
    ensures { IfOk result (λ is. is ≡ is_called (rec_in site.now) dynamically_accessed row.now) }
{
    let is = is_called(site, b"DynamicallyAccessedMembersAttribute", row)?;
    Ok(is)
}

/// Whether a row says that a member needs code that nothing refers to.
pub fn is_requires_unreferenced(site: &Site<'_>, row: &CustomAttributeRow) -> Result<bool, NoMemory>
    requires { IsSite site.now }
    ensures { IfOk result (λ is. is ≡ is_called (rec_in site.now) requires_unreferenced row.now) }
{
    let is = is_called(site, b"RequiresUnreferencedCodeAttribute", row)?;
    Ok(is)
}

/// Whether a row says what a member depends on.
pub fn is_dynamic_dependency(site: &Site<'_>, row: &CustomAttributeRow) -> Result<bool, NoMemory>
    requires { IsSite site.now }
    ensures { IfOk result (λ is. is ≡ is_called (rec_in site.now) dynamic_dependency row.now) }
{
    let is = is_called(site, b"DynamicDependencyAttribute", row)?;
    Ok(is)
}
