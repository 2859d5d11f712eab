ghost use Rattle.std.specs.Prelude.{◌≡◌, ℕ, ◌+◌, IfOk};
ghost use Rattle.resolver.specs.type_links.Nesting.{AreEnclosers};
ghost use Rattle.resolver.specs.type_links.Names.{AreTypeRows};

use crate::type_links::enclosers::Enclosers;
use crate::type_links::first::keep_first;
use il_base::NoMemory;
use il_base::world_model::AsmRec;
use std::alloc::Global;
use std::collections::HashMap;

/// The name of a type, in UTF-8.
#[derive(Clone, Copy, PartialEq, Eq, Hash)]
pub struct TypeName<'a> {
    pub namespace: &'a [u8],
    pub name: &'a [u8],
}

/// The key of a type among those of its assembly: name and encloser.
#[derive(Clone, Copy, PartialEq, Eq, Hash)]
pub(crate) struct TypeKey<'a> {
    /// The row of the enclosing type, from 0; None for a type that isn't nested.
    pub(crate) around: Option<u32>,
    pub(crate) name: TypeName<'a>,
}

/// The first row, from 0, of the types with each key.
pub(crate) fn type_rows<'a>(
    alloc: Global,
    rec: &'a AsmRec,
    enclosers: &Enclosers,
) -> Result<HashMap<TypeKey<'a>, u32>, NoMemory>
    requires { AreEnclosers rec.now enclosers.now }
    ensures { IfOk result (AreTypeRows rec.now) }
{
    let mut rows = HashMap::new(alloc);
    let mut at = 0u32;
    for row in rec.type_def.as_slice() {
        let name = TypeName {
            namespace: row.namespace.as_slice(),
            name: row.name.as_slice(),
        };
        let around = enclosers.get(at);
        keep_first(&mut rows, TypeKey { around, name }, at)?;
        at = next(at)?;
    }
    Ok(rows)
}

/// The next row's number.
fn next(at: u32) -> Result<u32, NoMemory>
    ensures { IfOk result (λ n. n ≡ at + 1) }
{
    at.checked_add(1).ok_or(NoMemory)
}
