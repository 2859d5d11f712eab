//! The columns by which rows are grouped.

ghost use Rattle.std.specs.Prelude.{◌≡◌, IfOk};
ghost use Rattle.type_tables.specs.Groups.{AreGroups};
ghost use Rattle.mark_parts.specs.mark_tables.Owners.{param_owners, constraint_owners, attribute_parents, accessor_methods, text_tokens};

use il_base::NoMemory;
use il_base::world_model::AsmRec;
use std::alloc::Global;
use type_tables::groups::Groups;

/// The Owner of each row of GenericParam (II.22.20).
fn param_owners(alloc: Global, rec: &AsmRec) -> Result<Vec<u32>, NoMemory>
    ensures { IfOk result (λ keys. keys.items ≡ param_owners rec.now) }
{
    let mut keys = Vec::new(alloc);
    for row in rec.generic_param.as_slice() {
        keys.push(row.owner)?;
    }
    Ok(keys)
}

/// The Owner of each row of GenericParamConstraint (II.22.21).
fn constraint_owners(alloc: Global, rec: &AsmRec) -> Result<Vec<u32>, NoMemory>
    ensures { IfOk result (λ keys. keys.items ≡ constraint_owners rec.now) }
{
    let mut keys = Vec::new(alloc);
    for row in rec.generic_param_constraint.as_slice() {
        keys.push(row.owner)?;
    }
    Ok(keys)
}

/// The Parent of each row of CustomAttribute (II.22.10).
fn attribute_parents(alloc: Global, rec: &AsmRec) -> Result<Vec<u32>, NoMemory>
    ensures { IfOk result (λ keys. keys.items ≡ attribute_parents rec.now) }
{
    let mut keys = Vec::new(alloc);
    for row in rec.custom_attribute.as_slice() {
        keys.push(row.parent)?;
    }
    Ok(keys)
}

/// The Method of each row of MethodSemantics (II.22.28).
fn accessor_methods(alloc: Global, rec: &AsmRec) -> Result<Vec<u32>, NoMemory>
    ensures { IfOk result (λ keys. keys.items ≡ accessor_methods rec.now) }
{
    let mut keys = Vec::new(alloc);
    for row in rec.method_semantics.as_slice() {
        keys.push(row.method)?;
    }
    Ok(keys)
}

/// The token of each user string (II.24.2.4).
fn text_tokens(alloc: Global, rec: &AsmRec) -> Result<Vec<u32>, NoMemory>
    ensures { IfOk result (λ keys. keys.items ≡ text_tokens rec.now) }
{
    let mut keys = Vec::new(alloc);
    for text in rec.user.as_slice() {
        keys.push(text.token)?;
    }
    Ok(keys)
}

/// GenericParam by Owner.
pub(crate) fn by_param_owner(alloc: Global, rec: &AsmRec) -> Result<Groups, NoMemory>
    ensures { IfOk result (AreGroups (param_owners rec.now)) }
{
    let keys = param_owners(alloc, rec)?;
    Groups::of(alloc, keys.as_slice())
}

/// GenericParamConstraint by Owner.
pub(crate) fn by_constraint_owner(alloc: Global, rec: &AsmRec) -> Result<Groups, NoMemory>
    ensures { IfOk result (AreGroups (constraint_owners rec.now)) }
{
    let keys = constraint_owners(alloc, rec)?;
    Groups::of(alloc, keys.as_slice())
}

/// CustomAttribute by Parent.
pub(crate) fn by_attribute_parent(alloc: Global, rec: &AsmRec) -> Result<Groups, NoMemory>
    ensures { IfOk result (AreGroups (attribute_parents rec.now)) }
{
    let keys = attribute_parents(alloc, rec)?;
    Groups::of(alloc, keys.as_slice())
}

/// MethodSemantics by Method.
pub(crate) fn by_accessor(alloc: Global, rec: &AsmRec) -> Result<Groups, NoMemory>
    ensures { IfOk result (AreGroups (accessor_methods rec.now)) }
{
    let keys = accessor_methods(alloc, rec)?;
    Groups::of(alloc, keys.as_slice())
}

/// User strings by their tokens.
pub(crate) fn by_text(alloc: Global, rec: &AsmRec) -> Result<Groups, NoMemory>
    ensures { IfOk result (AreGroups (text_tokens rec.now)) }
{
    let keys = text_tokens(alloc, rec)?;
    Groups::of(alloc, keys.as_slice())
}
