//! The rows of a table, grouped by the value in one of their columns.

ghost use Rattle.std.specs.Prelude.{◌≡◌, ℕ, ◌∷◌, [], ◌++◌, nat_eq, false, IfOk, OnOk, if◌then◌else◌};
ghost use Rattle.type_tables.specs.Groups.{rows_of, AreRowsOf, rows_with, AreGroups};

use crate::member_search::counted::row_of;
use il_base::{NoMemory, Seq};
use std::alloc::Global;
use std::collections::HashMap;

/// The rows of a table, from 0, grouped by the value in a column, those of each value in order.
#[derive(Drop)]
pub struct Groups {
    rows: HashMap<u32, Seq<u32>>,
}

/// Takes the rows of a value out.
fn take_rows(alloc: Global, rows: &mut HashMap<u32, Seq<u32>>, key: u32) -> Seq<u32>
    ensures taken { result ≡ rows_of rows.old key }
    ensures others { (q : ℕ) → nat_eq key q ≡ false → rows_of rows.new q ≡ rows_of rows.old q }
{
    match rows.remove(&key) {
        Some(of_key) => of_key,
        None => Seq::new(alloc),
    }
}

/// Puts a row at the end of those of a value.
fn put(alloc: Global, rows: &mut HashMap<u32, Seq<u32>>, key: u32, row: u32) -> Result<(), NoMemory>
    ensures { OnOk result ((q : ℕ) → rows_of rows.new q ≡ (if nat_eq key q then rows_of rows.old q ++ row ∷ [] else rows_of rows.old q)) }
{
    let mut of_key = take_rows(alloc, rows, key);
    of_key.push(row)?;
    rows.insert(key, of_key)?;
    Ok(())
}

impl Groups {
    /// Groups rows by their values in a column: `keys` has the value of each row.
    pub fn of(alloc: Global, keys: &[u32]) -> Result<Groups, NoMemory>
        ensures { IfOk result (AreGroups keys.now) }
    {
        let mut rows: HashMap<u32, Seq<u32>> = HashMap::new(alloc);
        for (k, key) in keys.iter().enumerate() {
            put(alloc, &mut rows, *key, row_of(k)?)?;
        }
        Ok(Groups { rows })
    }

    /// The rows, from 0, that have a value in the column.
    pub fn rows_with(&self, key: u32) -> &[u32]
        ensures { result.now ≡ rows_with self.now key }
    {
        match self.rows.get(&key) {
            Some(of_key) => of_key.as_slice(),
            None => &[],
        }
    }
}
