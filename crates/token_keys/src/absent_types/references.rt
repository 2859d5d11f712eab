//! References that name nothing, by the first row that reads the same.

ghost use Rattle.std.specs.Prelude.{◌≡◌, ◌-◌, length, slice_get, IfOk};
ghost use Rattle.rules.specs.merge_rules.Absent.{type_count, reference_rows, first_same, absent_type, absent_row};
ghost use Rattle.resolver.specs.type_links.Index.{IsIndex};
ghost use Rattle.token_keys.specs.absent_types.References.{IsReferences};

use crate::absent_types::named::{Placed, named_rows, rows_named};
use crate::absent_types::reading::first_reading;
use crate::absent_types::rows::{reference_at, reference_rows};
use il_base::{NoMemory, Seq, TypeId};
use resolver::type_links::TypeIndex;
use rules::link_rules::RowAt;
use std::alloc::Global;
use std::collections::HashMap;
use type_tables::member_search::counted::{Counted, rows_before};

/// The TypeRef rows of all inputs, by their places and by their names, and how many types the world has.
#[derive(Drop)]
pub struct References<'a> {
    pub index: &'a TypeIndex<'a>,
    pub rows: Vec<RowAt>,
    named: HashMap<&'a [u8], Seq<Placed>>,
    pub types: u32,
}

impl<'a> References<'a> {
    /// Those of the assemblies of an index.
    pub fn of(alloc: Global, index: &'a TypeIndex<'a>) -> Result<References<'a>, NoMemory>
        requires { IsIndex index.now }
        ensures is { IfOk result IsReferences }
        ensures all { IfOk result (λ r. r.index.now.all.now ≡ index.now.all.now) }
    {
        let rows = reference_rows(alloc, index.all)?;
        let named = named_rows(alloc, index.all, rows.as_slice())?;
        let types = rows_before(index.all, Counted::Types, index.all.len())?;
        Ok(References {
            index,
            rows,
            named,
            types,
        })
    }

    /// How many scopes a chain has at most: as many as there are rows.
    fn most(&self) -> usize
        ensures { result ≡ length self.now.rows.items }
    {
        self.rows.as_slice().len()
    }

    /// The place, from 0, of the first TypeRef row of the inputs that reads the same as a TypeRef row.
    pub fn first_same(&self, alloc: Global, at: RowAt) -> Result<Option<u32>, NoMemory>
        requires { IsReferences self.now }
        ensures { IfOk result (λ place. place ≡ first_same self.now.index.now.all.now at) }
    {
        let Some(row) = reference_at(self.index.all, at) else {
            return Ok(None);
        };
        let rows = rows_named(&self.named, row.name.as_slice());
        let place = first_reading(alloc, self.index, self.most(), at, rows)?;
        Ok(place)
    }

    /// The place of a TypeRef row that names nothing, after the types of the world.
    #[tactic(auto, unfolding(rules::specs::merge_rules::Absent::absent_type))]
    pub fn absent_type(&self, alloc: Global, at: RowAt) -> Result<Option<TypeId>, NoMemory>
        requires { IsReferences self.now }
        ensures { IfOk result (λ id. id ≡ absent_type self.now.index.now.all.now at) }
    {
        match self.first_same(alloc, at) {
            Ok(Some(place)) => match self.types.checked_add(place) {
                Some(id) => Ok(Some(TypeId(id))),
                None => Err(NoMemory),
            },
            Ok(None) => Ok(None),
            Err(error) => Err(error),
        }
    }

    /// The TypeRef row of a place after the types of the world.
    #[tactic(auto, unfolding(rules::specs::merge_rules::Absent::absent_row))]
    pub fn absent_row(&self, id: TypeId) -> Option<RowAt>
        requires { IsReferences self.now }
        ensures { result ≡ absent_row self.now.index.now.all.now id }
    {
        if self.types <= id.0 {
            self.row((id.0 - self.types) as usize)
        } else {
            None
        }
    }

    fn row(&self, place: usize) -> Option<RowAt>
        requires { IsReferences self.now }
        ensures { result ≡ slice_get (reference_rows self.now.index.now.all.now) place }
    {
        match self.rows.get(place) {
            Some(at) => Some(*at),
            None => None,
        }
    }
}
