//! Assemblies, each once.

ghost use Rattle.std.specs.Prelude.{◌≡◌, IfOk, OnOk};
ghost use Rattle.std.specs.List.{list_any, position};
ghost use Rattle.il_base.specs.declared.table.TheConstants.{ASSEMBLY_REF};
ghost use Rattle.rules.specs.merge_rules.Absent.{same_assembly};
ghost use Rattle.rules.specs.merge_rules.Refs.{met_once, row_token};
ghost use Rattle.reference_rows.specs.reference_scopes.Scopes.{recs_of, IsScopes};
ghost use Rattle.reference_rows.specs.reference_assemblies.Assemblies.{assemblies_by, assembly_token_by, meets_listed};

use crate::reference_scopes::scopes::Scopes;
use il_base::world_model::AssemblyRefRow;
use il_base::{NoMemory, Seq, TypeId, table};
use std::alloc::Global;
use token_keys::core_scopes::assemblies::same_assembly;
use token_keys::met_keys::row_tokens::row_token;

/// Whether a row reads as one of these.
fn has(rows: &[AssemblyRefRow], row: &AssemblyRefRow) -> bool
    ensures { result ≡ list_any (same_assembly row.now) rows.now }
{
    rows.iter().any(|other| same_assembly(row, other))
}

/// Puts a row at the end, where none reads the same.
fn meet(rows: &mut Seq<AssemblyRefRow>, row: AssemblyRefRow) -> Result<(), NoMemory>
    ensures { OnOk result (rows.new ≡ met_once same_assembly rows.old row) }
{
    if has(rows.as_slice(), &row) {
        drop(row);
        return Ok(());
    }
    rows.push(row)?;
    Ok(())
}

/// Puts the assembly of a type at the end, where none reads the same.
fn meet_of(
    alloc: Global,
    scopes: &Scopes<'_>,
    id: TypeId,
    rows: &mut Seq<AssemblyRefRow>,
) -> Result<(), NoMemory>
    requires { IsScopes scopes.now }
    ensures { OnOk result (rows.new ≡ meets_listed (recs_of scopes.now) rows.old id) }
{
    match scopes.assembly_of(alloc, id) {
        Ok(Some(row)) => {
            meet(rows, row)?;
            Ok(())
        }
        Ok(None) => Ok(()),
        Err(error) => Err(error),
    }
}

/// The assemblies of these types, each once, as first met. A type in another, or in the module, has none.
pub fn assembly_refs(
    alloc: Global,
    scopes: &Scopes<'_>,
    types: &[TypeId],
) -> Result<Seq<AssemblyRefRow>, NoMemory>
    requires { IsScopes scopes.now }
    ensures { IfOk result (λ rows. rows ≡ assemblies_by (recs_of scopes.now) types.now) }
{
    let mut rows = Seq::new(alloc);
    for id in types {
        meet_of(alloc, scopes, *id, &mut rows)?;
    }
    Ok(rows)
}

/// The place of the first of these rows that reads as a row.
fn place(rows: &[AssemblyRefRow], row: &AssemblyRefRow) -> Option<usize>
    ensures { result ≡ position (same_assembly row.now) rows.now }
{
    rows.iter().position(|other| same_assembly(row, other))
}

/// The token of an assembly among the AssemblyRef rows of the output; 0 for one that isn't there.
pub fn assembly_token(rows: &[AssemblyRefRow], row: &AssemblyRefRow) -> Result<u32, NoMemory>
    ensures { IfOk result (λ token. token ≡ assembly_token_by rows.now row.now) }
{
    let token = row_token(table::ASSEMBLY_REF, place(rows, row))?;
    Ok(token)
}
