ghost use Rattle.std.specs.Prelude.{◌≡◌, ℕ, List, ◌<◌, ◌≤◌, ◌∷◌, [], ◌++◌, length, bytes_eq, false, slice_index, IfOk, OnOk, if◌then◌else◌};
ghost use Rattle.std.specs.List.{AllZip};
ghost use Rattle.std.specs.List.Sorted.{IsNonDecreasing};
ghost use Rattle.type_tables.specs.member_search.Names.{rows_at, AreMethodRows, AreFieldRows, AreNames};

use crate::member_search::counted::row_of;
use il_base::world_model::AsmRec;
use il_base::{NoMemory, Seq};
use std::alloc::Global;
use std::collections::HashMap;

/// The rows, from 0, of the methods and of the fields of an assembly by their names, the rows of each name in order.
#[derive(Drop)]
pub struct Names<'a> {
    pub methods: HashMap<&'a [u8], Seq<u32>>,
    pub fields: HashMap<&'a [u8], Seq<u32>>,
}

/// Takes the rows with a name out.
fn take_rows<'a>(alloc: Global, rows: &mut HashMap<&'a [u8], Seq<u32>>, name: &'a [u8]) -> Seq<u32>
    ensures taken { result ≡ rows_at rows.old name.now }
    ensures others { (q : List ℕ) → bytes_eq name.now q ≡ false → rows_at rows.new q ≡ rows_at rows.old q }
{
    match rows.remove(name) {
        Some(of_name) => of_name,
        None => Seq::new(alloc),
    }
}

/// Puts a row at the end of those with its name.
fn put<'a>(
    alloc: Global,
    rows: &mut HashMap<&'a [u8], Seq<u32>>,
    name: &'a [u8],
    row: u32,
) -> Result<(), NoMemory>
    ensures { OnOk result ((q : List ℕ) → rows_at rows.new q ≡ (if bytes_eq name.now q then rows_at rows.old q ++ row ∷ [] else rows_at rows.old q)) }
{
    let mut of_name = take_rows(alloc, rows, name);
    of_name.push(row)?;
    rows.insert(name, of_name)?;
    Ok(())
}

fn method_rows<'a>(alloc: Global, rec: &'a AsmRec) -> Result<HashMap<&'a [u8], Seq<u32>>, NoMemory>
    ensures { IfOk result (AreMethodRows rec.now) }
{
    let mut rows: HashMap<&'a [u8], Seq<u32>> = HashMap::new(alloc);
    for (k, row) in rec.method_def.as_slice().iter().enumerate() {
        put(alloc, &mut rows, row.name.as_slice(), row_of(k)?)?;
    }
    Ok(rows)
}

fn field_rows<'a>(alloc: Global, rec: &'a AsmRec) -> Result<HashMap<&'a [u8], Seq<u32>>, NoMemory>
    ensures { IfOk result (AreFieldRows rec.now) }
{
    let mut rows: HashMap<&'a [u8], Seq<u32>> = HashMap::new(alloc);
    for (k, row) in rec.field.as_slice().iter().enumerate() {
        put(alloc, &mut rows, row.name.as_slice(), row_of(k)?)?;
    }
    Ok(rows)
}

impl<'a> Names<'a> {
    pub fn of(alloc: Global, rec: &'a AsmRec) -> Result<Names<'a>, NoMemory>
        ensures { IfOk result (AreNames rec.now) }
    {
        let methods = method_rows(alloc, rec)?;
        let fields = field_rows(alloc, rec)?;
        Ok(Names { methods, fields })
    }
}

/// The members of each assembly by name.
pub fn names_of<'a>(alloc: Global, all: &'a [AsmRec]) -> Result<Vec<Names<'a>>, NoMemory>
    ensures { IfOk result (λ names. AllZip AreNames all.now names.items) }
{
    let mut names = Vec::new(alloc);
    for rec in all {
        let own = Names::of(alloc, rec)?;
        names.push(own)?;
    }
    Ok(names)
}

/// The rows with a name.
pub fn rows_at<'a>(rows: &'a HashMap<&[u8], Seq<u32>>, name: &[u8]) -> &'a [u32]
    ensures { result.now ≡ rows_at rows.now name.now }
{
    match rows.get(name) {
        Some(of_name) => of_name.as_slice(),
        None => &[],
    }
}

/// The place among rows in order of the first that isn't before `start`.
pub fn first_from(rows: &[u32], start: u32) -> usize
    requires { IsNonDecreasing rows.now }
    ensures within { result ≤ length rows.now }
    ensures before { (k : ℕ) → k < result → slice_index rows.now k < start }
    ensures behind { (k : ℕ) → result ≤ k → k < length rows.now → start ≤ slice_index rows.now k }
{
    rows.partition_point(|row| *row < start)
}
