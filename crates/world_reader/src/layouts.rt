ghost use Rattle.std.specs.Prelude.{◌≡◌, IfOk};
ghost use Rattle.rules.specs.record_format.Parts.{layout_size};

use il_base::world_model::ClassLayoutRow;
use il_base::{NoMemory, Seq};
use std::alloc::Global;
use std::collections::HashMap;
use std::marker::Model;

/// The rows of ClassLayout (II.22.8), and the size of each type by its token. Contracts see the rows.
#[derive(Drop)]
pub struct Layouts {
    rows: Seq<ClassLayoutRow>,
    /// By the token of the type; of two rows for one type the first counts.
    sizes: HashMap<u32, u32>,
}

impl Model for Layouts {
    ghost use Rattle.std.specs.Prelude.{◌≡◌, ℕ, List, nat_eq};
    ghost use Rattle.std.specs.HashMap.{get};
    ghost use Rattle.il_base.specs.declared.world_model.types.ClassLayoutRow.{ClassLayoutRow};
    ghost use Rattle.rules.specs.record_format.Parts.{layout_size};

    ghost Value = { List ClassLayoutRow };

    ghost view = { λ l. l.rows };

    ghost invariant = { λ l. (token : ℕ) → get nat_eq l.sizes token ≡ layout_size l.rows token };
}

impl Layouts {
    pub fn of(alloc: Global, rows: Seq<ClassLayoutRow>) -> Result<Layouts, NoMemory>
        ensures { IfOk result (λ l. l ≡ rows) }
    {
        let mut sizes = HashMap::new(alloc);
        for row in rows.as_slice() {
            if !sizes.contains_key(&row.parent) {
                sizes.insert(row.parent, row.class_size)?;
            }
        }
        Ok(Layouts { rows, sizes })
    }

    /// The size in bytes of a type by its token. None where it has no layout.
    pub fn size(&self, token: u32) -> Option<u32>
        ensures { result ≡ layout_size self.now token }
    {
        self.sizes.get(&token).copied()
    }

    /// The rows.
    pub fn into_rows(self) -> Seq<ClassLayoutRow>
        ensures { result ≡ self }
    {
        let Layouts { rows, sizes: _ } = self;
        rows
    }
}
