//! An assembly with the enclosers of its nested types (II.22.32).

ghost use Rattle.std.specs.Prelude.{◌≡◌, IfOk};
ghost use Rattle.rules.specs.link_rules.Types.{encloser};

use il_base::world_model::{AsmRec, index_in, wide_token};
use il_base::{NoMemory, table};
use std::alloc::Global;
use std::collections::HashMap;
use std::marker::Model;

/// An assembly, and the encloser of each nested type. Contracts see the record.
#[derive(Drop)]
pub(crate) struct Nested<'a> {
    rec: &'a AsmRec,
    /// By the token of the nested type, the row of its encloser, from 0; of two rows for one type the first counts.
    enclosers: HashMap<u64, Option<u32>>,
}

impl<'a> Model for Nested<'a> {
    ghost use Rattle.std.specs.Prelude.{◌≡◌, ℕ, None, unwrap_or, nat_eq};
    ghost use Rattle.std.specs.HashMap.{get};
    ghost use Rattle.il_base.specs.declared.world_model.record.AsmRec.{AsmRec};
    ghost use Rattle.il_base.specs.contracts.world_model.record.AsmRec as asm_rec;
    ghost use Rattle.rules.specs.link_rules.Types.{encloser_in};

    ghost Value = { AsmRec };

    ghost coded = { asm_rec.the_row.coded };

    ghost view = { λ n. n.rec.now };

    ghost invariant = { λ n. (token : ℕ) → unwrap_or (get nat_eq n.enclosers token) None ≡ encloser_in token n.rec.now.nested_class };
}

impl<'a> Nested<'a> {
    pub(crate) fn of(alloc: Global, rec: &'a AsmRec) -> Result<Nested<'a>, NoMemory>
        ensures { IfOk result (λ n. n ≡ rec.now) }
    {
        let mut enclosers = HashMap::new(alloc);
        for row in rec.nested_class.as_slice() {
            let token = u64::from(row.nested_class);
            if !enclosers.contains_key(&token) {
                enclosers.insert(token, index_in(table::TYPE_DEF, row.enclosing_class))?;
            }
        }
        Ok(Nested { rec, enclosers })
    }

    /// The record.
    pub(crate) fn rec(&self) -> &'a AsmRec
        ensures { result.now ≡ self.now }
    {
        self.rec
    }

    /// The row, from 0, of the type that encloses a type; None for a type that isn't nested.
    #[tactic(auto, unfolding(rules::specs::link_rules::Types::encloser))]
    pub(crate) fn encloser(&self, row: u32) -> Option<u32>
        ensures { result ≡ encloser self.now row }
    {
        match self.enclosers.get(&wide_token(table::TYPE_DEF, row)) {
            None => None,
            Some(around) => *around,
        }
    }
}
