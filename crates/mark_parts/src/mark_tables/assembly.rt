//! An assembly of a world.

ghost use Rattle.std.specs.Prelude.{◌≡◌, None, suc, slice_index_or, IfOk};
ghost use Rattle.std.specs.List.{position_from};
ghost use Rattle.rules.specs.link_rules.Members.{owns_field};
ghost use Rattle.rules.specs.link_rules.Types.{encloser};
ghost use Rattle.rules.specs.type_rules.Rows.{owner_of_field};
ghost use Rattle.mark_parts.specs.mark_tables.Assemblies.{rec_of, IsAssembly};

use crate::mark_tables::owners::OwnerRows;
use il_base::world_model::{AsmRec, TypeDefRow, World, token_of};
use il_base::{NoMemory, table};
use type_tables::member_search::counted::row_of;
use type_tables::member_search::linked::Scope;
use type_tables::tables::RowTables;

/// An assembly of a world, with its tables.
#[derive(Clone, Copy)]
pub struct Assembly<'a> {
    pub world: &'a World,
    pub scope: Scope<'a>,
    pub of_types: &'a RowTables,
    pub owners: &'a OwnerRows,
}

/// Whether the run of a type holds a field, by its row from 1.
fn owns_field(row: u64, t: &TypeDefRow) -> bool
    ensures { result ≡ owns_field row t.now }
{
    u64::from(t.field_list_first) <= row && row < u64::from(t.field_list_end)
}

/// The first type of an assembly whose run holds a field that isn't there, both by their rows from 0.
fn owner_beyond(rec: &AsmRec, row: u32) -> Option<usize>
    ensures { result ≡ position_from (owns_field (suc row)) 0 rec.now.type_def }
{
    let row = u64::from(row) + 1;
    rec.type_def
        .as_slice()
        .iter()
        .position(|t| owns_field(row, t))
}

impl Assembly<'_> {
    /// The type that encloses a type, both by their rows from 0; None for a type that isn't nested.
    #[tactic(auto, unfolding(rules::specs::link_rules::Types::encloser))]
    pub fn encloser(&self, row: u32) -> Result<Option<u32>, NoMemory>
        requires { IsAssembly self.now }
        ensures { IfOk result (λ around. around ≡ encloser (rec_of self.now) row) }
    {
        let token = token_of(table::TYPE_DEF, row as usize)?;
        Ok(self.owners.enclosers.of_token(token))
    }

    /// The type in whose run a field is, both by their rows from 0.
    pub fn owner_of_field(&self, row: u32) -> Result<Option<u32>, NoMemory>
        requires { IsAssembly self.now }
        ensures { IfOk result (λ owner. owner ≡ owner_of_field (rec_of self.now) row) }
    {
        let rec = self.scope.rec;
        if (row as usize) < rec.field.len() {
            return Ok(self.known_owner(row));
        }
        match owner_beyond(rec, row) {
            Some(t) => {
                let t = row_of(t)?;
                Ok(Some(t))
            }
            None => Ok(None),
        }
    }

    /// The type in whose run a field that is there is.
    fn known_owner(&self, row: u32) -> Option<u32>
        ensures { result ≡ slice_index_or self.now.owners.now.fields.items row None }
    {
        match self.owners.fields.get(row as usize) {
            Some(owner) => *owner,
            None => None,
        }
    }
}
