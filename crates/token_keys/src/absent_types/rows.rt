//! TypeRef rows of several assemblies, and what they have as their scopes (II.22.38).

ghost use Rattle.std.specs.Prelude.{◌≡◌, ◌-◌, ◌++◌, length, take, slice_get, IfOk, OnOk};
ghost use Rattle.std.specs.Option.{option_copied, option_and_then};
ghost use Rattle.il_base.specs.declared.table.TheConstants.{ASSEMBLY_REF};
ghost use Rattle.il_base.specs.world_model.Tokens.{index_in};
ghost use Rattle.resolver.specs.type_links.Index.{IsIndex};
ghost use Rattle.rules.specs.merge_rules.Absent.{same_assembly, reference_rows, reference_at, definition_of, assembly_scope, reference_scope};
ghost use Rattle.token_keys.specs.absent_types.Rows.{NamesRow, rows_of_one};

use il_base::world_model::{AsmRec, AssemblyRefRow, TypeRefRow, index_in, token_of};
use il_base::{NoMemory, table};
use resolver::type_links::TypeIndex;
use rules::link_rules::RowAt;
use std::alloc::Global;
use type_tables::member_search::counted::row_of;
use type_tables::member_search::linked::assembly_at;

/// All assemblies but the core library, which is the last.
fn inputs(recs: &[AsmRec]) -> &[AsmRec]
    ensures { result.now ≡ take (length recs.now - 1) recs.now }
{
    &recs[..recs.len().saturating_sub(1)]
}

/// Puts the TypeRef rows of an assembly at the end.
fn push_rows(rows: &mut Vec<RowAt>, asm: u32, rec: &AsmRec) -> Result<(), NoMemory>
    ensures { OnOk result (rows.new.items ≡ rows.old.items ++ rows_of_one asm rec.now) }
{
    for k in 0..rec.type_ref.len() {
        let row = row_of(k)?;
        rows.push(RowAt { asm, row })?;
    }
    Ok(())
}

/// The TypeRef rows of all inputs, in word order and in the order of the rows.
pub(crate) fn reference_rows(alloc: Global, recs: &[AsmRec]) -> Result<Vec<RowAt>, NoMemory>
    ensures { IfOk result (λ rows. rows.items ≡ reference_rows recs.now) }
{
    let mut rows = Vec::new(alloc);
    for (a, rec) in inputs(recs).iter().enumerate() {
        let asm = row_of(a)?;
        push_rows(&mut rows, asm, rec)?;
    }
    Ok(rows)
}

/// A TypeRef row.
pub fn reference_at(recs: &[AsmRec], at: RowAt) -> Option<&TypeRefRow>
    ensures { option_copied result ≡ reference_at recs.now at }
{
    match assembly_at(recs, at.asm) {
        None => None,
        Some(rec) => rec.type_ref.get(at.row as usize),
    }
}

/// The row of AssemblyRef that a TypeRef row of an assembly has as its scope.
fn assembly_of<'a>(rec: &'a AsmRec, row: &TypeRefRow) -> Option<&'a AssemblyRefRow>
    ensures { option_copied result ≡ option_and_then (slice_get rec.now.assembly_ref) (index_in ASSEMBLY_REF row.now.resolution_scope) }
{
    match index_in(table::ASSEMBLY_REF, row.resolution_scope) {
        None => None,
        Some(k) => rec.assembly_ref.get(k as usize),
    }
}

/// The assembly that a TypeRef row has as its scope.
pub fn assembly_scope(recs: &[AsmRec], at: RowAt) -> Option<&AssemblyRefRow>
    ensures { option_copied result ≡ assembly_scope recs.now at }
{
    let Some(rec) = assembly_at(recs, at.asm) else {
        return None;
    };
    match rec.type_ref.get(at.row as usize) {
        None => None,
        Some(row) => assembly_of(rec, row),
    }
}

/// The TypeRef row that a TypeRef row has as its scope.
pub fn reference_scope(recs: &[AsmRec], at: RowAt) -> Option<RowAt>
    ensures { result ≡ reference_scope recs.now at }
{
    match reference_at(recs, at) {
        None => None,
        Some(row) => match index_in(table::TYPE_REF, row.resolution_scope) {
            None => None,
            Some(k) => Some(RowAt {
                asm: at.asm,
                row: k,
            }),
        },
    }
}

/// The token of a row, from 0, of a table. A row whose token would be of another table has none: there is no memory for it.
pub fn row_token(table: u8, row: u32) -> Result<u32, NoMemory>
    ensures { IfOk result (NamesRow table row) }
{
    if row >= 0xff_ffff {
        return Err(NoMemory);
    }
    let token = token_of(table, row as usize)?;
    Ok(token)
}

/// The definition that a TypeRef row names.
pub fn definition_of(
    alloc: Global,
    index: &TypeIndex<'_>,
    at: RowAt,
) -> Result<Option<RowAt>, NoMemory>
    requires { IsIndex index.now }
    ensures { IfOk result (λ def. def ≡ definition_of index.now.all.now at) }
{
    let token = row_token(table::TYPE_REF, at.row)?;
    let def = index.definition_at(alloc, at.asm, token)?;
    Ok(def)
}

/// Whether two references to assemblies read the same (II.22.5): all but their hashes.
pub fn same_assembly(a: &AssemblyRefRow, b: &AssemblyRefRow) -> bool
    ensures { result ≡ same_assembly a.now b.now }
{
    a.major_version == b.major_version
        && a.minor_version == b.minor_version
        && a.build_number == b.build_number
        && a.revision_number == b.revision_number
        && a.flags == b.flags
        && a.public_key_or_token.as_slice() == b.public_key_or_token.as_slice()
        && a.name.as_slice() == b.name.as_slice()
        && a.culture.as_slice() == b.culture.as_slice()
}
