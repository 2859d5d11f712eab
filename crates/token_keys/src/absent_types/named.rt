//! TypeRef rows by their names.

ghost use Rattle.std.specs.Prelude.{◌≡◌, ℕ, List, ◌∷◌, [], ◌++◌, bytes_eq, false, IfOk, OnOk, if◌then◌else◌};
ghost use Rattle.token_keys.specs.absent_types.Named.{named_in, has_name, AreNamed};

use crate::absent_types::rows::reference_at;
use il_base::world_model::AsmRec;
use il_base::{NoMemory, Seq};
use rules::link_rules::RowAt;
use std::alloc::Global;
use std::collections::HashMap;
use type_tables::member_search::counted::row_of;

/// A TypeRef row of the inputs, and its place among them from 0.
#[derive(Clone, Copy)]
pub(crate) struct Placed {
    pub(crate) place: u32,
    pub(crate) at: RowAt,
}

/// Takes the rows with a name out.
fn take_rows<'a>(
    alloc: Global,
    rows: &mut HashMap<&'a [u8], Seq<Placed>>,
    name: &'a [u8],
) -> Seq<Placed>
    ensures taken { result ≡ named_in rows.old name.now }
    ensures others { (q : List ℕ) → bytes_eq name.now q ≡ false → named_in rows.new q ≡ named_in rows.old q }
{
    match rows.remove(name) {
        Some(of_name) => of_name,
        None => Seq::new(alloc),
    }
}

/// Puts a row at the end of those with its name.
fn put<'a>(
    alloc: Global,
    rows: &mut HashMap<&'a [u8], Seq<Placed>>,
    name: &'a [u8],
    placed: Placed,
) -> Result<(), NoMemory>
    ensures { OnOk result ((q : List ℕ) → named_in rows.new q ≡ (if bytes_eq name.now q then named_in rows.old q ++ placed ∷ [] else named_in rows.old q)) }
{
    let mut of_name = take_rows(alloc, rows, name);
    of_name.push(placed)?;
    rows.insert(name, of_name)?;
    Ok(())
}

/// Puts a row at the end of those with its name, if it is there.
fn meet<'a>(
    alloc: Global,
    recs: &'a [AsmRec],
    rows: &mut HashMap<&'a [u8], Seq<Placed>>,
    placed: Placed,
) -> Result<(), NoMemory>
    ensures { OnOk result ((q : List ℕ) → named_in rows.new q ≡ (if has_name recs.now q placed.at then named_in rows.old q ++ placed ∷ [] else named_in rows.old q)) }
{
    match reference_at(recs, placed.at) {
        None => Ok(()),
        Some(row) => put(alloc, rows, row.name.as_slice(), placed),
    }
}

/// The rows of each name, in order.
pub(crate) fn named_rows<'a>(
    alloc: Global,
    recs: &'a [AsmRec],
    all: &[RowAt],
) -> Result<HashMap<&'a [u8], Seq<Placed>>, NoMemory>
    ensures { IfOk result (AreNamed recs.now all.now) }
{
    let mut rows: HashMap<&'a [u8], Seq<Placed>> = HashMap::new(alloc);
    for (k, at) in all.iter().enumerate() {
        let place = row_of(k)?;
        meet(alloc, recs, &mut rows, Placed { place, at: *at })?;
    }
    Ok(rows)
}

/// The rows with a name.
pub(crate) fn rows_named<'a>(rows: &'a HashMap<&[u8], Seq<Placed>>, name: &[u8]) -> &'a [Placed]
    ensures { result.now ≡ named_in rows.now name.now }
{
    match rows.get(name) {
        Some(of_name) => of_name.as_slice(),
        None => &[],
    }
}
