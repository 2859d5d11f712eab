//! The types around a type.

ghost use Rattle.std.specs.Prelude.{◌≡◌, ◌∷◌, ◌++◌, reverse, IfOk, OnOk};
ghost use Rattle.rules.specs.merge_rules.Refs.{with_scopes};
ghost use Rattle.token_keys.specs.absent_types.References.{IsReferences};

use crate::reference_scopes::around::scope_type;
use il_base::{NoMemory, TypeId};
use std::alloc::Global;
use token_keys::absent_types::references::References;

/// The outermost type around a type, over at most `most` scopes. Puts those inside it at the end, the given type first.
fn climb(
    alloc: Global,
    references: &References<'_>,
    most: usize,
    id: TypeId,
    inner: &mut Vec<TypeId>,
) -> Result<TypeId, NoMemory>
    requires { IsReferences references.now }
    ensures { IfOk result (λ top. with_scopes references.now.index.now.all.now most id ++ reverse inner.old.items ≡ top ∷ reverse inner.new.items) }
{
    let mut at = id;
    for i in 0..most {
        match scope_type(alloc, references, at) {
            Ok(Some(around)) => {
                inner.push(at)?;
                at = around;
            }
            Ok(None) => return Ok(at),
            Err(error) => return Err(error),
        }
    }
    Ok(at)
}

/// Puts these types at the end, the last of them first.
fn put_back(inner: Vec<TypeId>, types: &mut Vec<TypeId>) -> Result<(), NoMemory>
    ensures { OnOk result (types.new.items ≡ types.old.items ++ reverse inner.items) }
{
    let mut left = inner;
    while let Some(id) = left.pop() {
        types.push(id)?;
    }
    Ok(())
}

/// Puts a type at the end after the types around it, the outermost first; over at most `most` scopes.
pub(crate) fn push_with_scopes(
    alloc: Global,
    references: &References<'_>,
    most: usize,
    id: TypeId,
    types: &mut Vec<TypeId>,
) -> Result<(), NoMemory>
    requires { IsReferences references.now }
    ensures { OnOk result (types.new.items ≡ types.old.items ++ with_scopes references.now.index.now.all.now most id) }
{
    let mut inner = Vec::new(alloc);
    let top = climb(alloc, references, most, id, &mut inner)?;
    types.push(top)?;
    put_back(inner, types)?;
    Ok(())
}
