ghost use Rattle.std.specs.Prelude.{◌≡◌, ℕ, IfOk};
ghost use Rattle.rules.specs.link_rules.Types.{encloser};
ghost use Rattle.resolver.specs.type_links.Nesting.{encloser_by, AreEnclosers};

use crate::type_links::first::keep_first;
use il_base::world_model::{AsmRec, index_in, wide_token};
use il_base::{NoMemory, table};
use std::alloc::Global;
use std::collections::HashMap;

/// The enclosers of an assembly's nested types (II.22.32).
#[derive(Drop)]
pub(crate) struct Enclosers {
    /// By the TypeDef token of the nested type, the row of its encloser from 0; None for one that is no type.
    rows: HashMap<u64, Option<u32>>,
}

impl Enclosers {
    /// The enclosers in the first NestedClass row of each type.
    pub(crate) fn of(alloc: Global, rec: &AsmRec) -> Result<Enclosers, NoMemory>
        ensures { IfOk result (AreEnclosers rec.now) }
    {
        let mut rows = HashMap::new(alloc);
        for row in rec.nested_class.as_slice() {
            let outer = index_in(table::TYPE_DEF, row.enclosing_class);
            keep_first(&mut rows, u64::from(row.nested_class), outer)?;
        }
        Ok(Enclosers { rows })
    }

    /// The row of the type that encloses the type in row `k`, both from 0; None for a type that isn't nested.
    pub(crate) fn get(&self, k: u32) -> Option<u32>
        ensures { result ≡ encloser_by self.now k }
    {
        match self.rows.get(&wide_token(table::TYPE_DEF, k)) {
            None => None,
            Some(row) => *row,
        }
    }
}
