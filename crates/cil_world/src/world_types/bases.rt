//! A type and its bases (II.10.1).

ghost use Rattle.std.specs.Prelude.{◌≡◌, IfOk};
ghost use Rattle.rules.specs.link_rules.Members.{with_bases};
ghost use Rattle.type_tables.specs.Tables.{IsTables};

use il_base::NoMemory;
use il_base::world_model::TypeExpr;
use std::alloc::Global;
use type_tables::tables::Tables;
use virtual_calls::nearest::{base_of, type_count};

/// A type and its bases, the nearest first.
pub fn with_bases(
    alloc: Global,
    tables: &Tables<'_>,
    start: &TypeExpr,
) -> Result<Vec<TypeExpr>, NoMemory>
    requires { IsTables tables.now }
    ensures { IfOk result (λ types. types.items ≡ with_bases tables.now.world.now.recs start.now) }
{
    let count = type_count(tables)?;
    let mut types = Vec::new(alloc);
    let mut ty = start.copy(alloc)?;
    for _ in 0..count {
        let base = base_of(alloc, tables, &ty)?;
        types.push(ty)?;
        match base {
            Some(base) => ty = base,
            None => return Ok(types),
        }
    }
    Ok(types)
}
