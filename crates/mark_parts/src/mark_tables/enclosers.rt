//! The enclosers of nested types (II.22.32).

ghost use Rattle.std.specs.Prelude.{◌≡◌, suc, IfOk};
ghost use Rattle.il_base.specs.declared.table.TheConstants.{TYPE_DEF};
ghost use Rattle.il_base.specs.world_model.Tokens.{token_of};
ghost use Rattle.rules.specs.link_rules.Types.{encloser_in};
ghost use Rattle.mark_parts.specs.mark_tables.Owners.{encloser_by, AreEnclosers};

use il_base::world_model::{AsmRec, index_in};
use il_base::{NoMemory, table};
use std::alloc::Global;
use std::collections::HashMap;

/// By the token of a nested type, the row of its encloser, from 0; of two rows for one type the first counts.
#[derive(Drop)]
pub struct Enclosers {
    rows: HashMap<u32, Option<u32>>,
}

impl Enclosers {
    pub fn of(alloc: Global, rec: &AsmRec) -> Result<Enclosers, NoMemory>
        ensures { IfOk result (AreEnclosers rec.now) }
    {
        let mut rows = HashMap::new(alloc);
        for row in rec.nested_class.as_slice() {
            if !rows.contains_key(&row.nested_class) {
                rows.insert(
                    row.nested_class,
                    index_in(table::TYPE_DEF, row.enclosing_class),
                )?;
            }
        }
        Ok(Enclosers { rows })
    }

    /// The row, from 0, of the type that encloses the type of a token; None for a type that isn't nested.
    pub fn of_token(&self, token: u32) -> Option<u32>
        ensures { result ≡ encloser_by self.now token }
    {
        match self.rows.get(&token) {
            None => None,
            Some(around) => *around,
        }
    }
}
