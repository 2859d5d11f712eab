//! TypeRef rows.

ghost use Rattle.std.specs.Prelude.{◌≡◌, ◌++◌, IfOk, OnOk};
ghost use Rattle.std.specs.List.{flat_map};
ghost use Rattle.std.specs.Option.{option_copied, option_and_then};
ghost use Rattle.rules.specs.link_rules.Members.{type_home};
ghost use Rattle.rules.specs.type_rules.Rows.{type_row_at};
ghost use Rattle.reference_rows.specs.reference_scopes.Scopes.{recs_of};
ghost use Rattle.reference_rows.specs.Types.{AreTokens, named_row, found_by, absent_by, type_ref_by, type_ref_rows_by};

use crate::tokens::TypeTokens;
use il_base::world_model::{AsmRec, AssemblyRefRow, TypeDefRow, TypeRefRow};
use il_base::{NoMemory, Seq, TypeId};
use rules::link_rules::RowAt;
use std::alloc::Global;
use token_keys::absent_types::rows::reference_at;
use type_tables::member_search::homes::type_home;
use type_tables::member_search::linked::assembly_at;

/// A row with these names.
fn named_row(
    alloc: Global,
    scope: u32,
    name: &[u8],
    namespace: &[u8],
) -> Result<TypeRefRow, NoMemory>
    ensures { IfOk result (λ row. row ≡ named_row scope name.now namespace.now) }
{
    let name = Seq::from_slice(alloc, name)?;
    let namespace = Seq::from_slice(alloc, namespace)?;
    Ok(TypeRefRow {
        resolution_scope: scope,
        name,
        namespace,
    })
}

/// A TypeDef row.
fn row_at(recs: &[AsmRec], at: RowAt) -> Option<&TypeDefRow>
    ensures { option_copied result ≡ type_row_at recs.now at }
{
    match assembly_at(recs, at.asm) {
        None => None,
        Some(rec) => rec.type_def.get(at.row as usize),
    }
}

/// The TypeDef row of a type.
fn type_row(recs: &[AsmRec], id: TypeId) -> Result<Option<&TypeDefRow>, NoMemory>
    ensures { IfOk result (λ row. option_copied row ≡ option_and_then (type_row_at recs.now) (type_home recs.now id)) }
{
    let home = type_home(recs, id)?;
    match home {
        None => Ok(None),
        Some(at) => Ok(row_at(recs, at)),
    }
}

/// Puts the row of a type of the core library at the end.
fn push_found(
    alloc: Global,
    tokens: &TypeTokens<'_>,
    assemblies: &[AssemblyRefRow],
    id: TypeId,
    rows: &mut Seq<TypeRefRow>,
) -> Result<(), NoMemory>
    requires { AreTokens tokens.now }
    ensures { OnOk result (rows.new ≡ rows.old ++ found_by tokens.now assemblies.now id) }
{
    let scopes = tokens.scopes;
    let found = type_row(scopes.references.index.all, id)?;
    match found {
        None => Ok(()),
        Some(row) => {
            let scope = tokens.scope_token(alloc, assemblies, id)?;
            let new = named_row(alloc, scope, row.name.as_slice(), row.namespace.as_slice())?;
            rows.push(new)?;
            Ok(())
        }
    }
}

/// Puts the row of a type that isn't there at the end: its own names, as a TypeRef row of an input has them.
fn push_absent(
    alloc: Global,
    tokens: &TypeTokens<'_>,
    assemblies: &[AssemblyRefRow],
    id: TypeId,
    at: RowAt,
    rows: &mut Seq<TypeRefRow>,
) -> Result<(), NoMemory>
    requires { AreTokens tokens.now }
    ensures { OnOk result (rows.new ≡ rows.old ++ absent_by tokens.now assemblies.now id at) }
{
    let scopes = tokens.scopes;
    match reference_at(scopes.references.index.all, at) {
        None => Ok(()),
        Some(row) => {
            let scope = tokens.scope_token(alloc, assemblies, id)?;
            let new = named_row(alloc, scope, row.name.as_slice(), row.namespace.as_slice())?;
            rows.push(new)?;
            Ok(())
        }
    }
}

/// Puts the row of a type at the end.
fn push_row(
    alloc: Global,
    tokens: &TypeTokens<'_>,
    assemblies: &[AssemblyRefRow],
    id: TypeId,
    rows: &mut Seq<TypeRefRow>,
) -> Result<(), NoMemory>
    requires { AreTokens tokens.now }
    ensures { OnOk result (rows.new ≡ rows.old ++ type_ref_by tokens.now assemblies.now id) }
{
    let scopes = tokens.scopes;
    match scopes.references.absent_row(id) {
        None => {
            push_found(alloc, tokens, assemblies, id, rows)?;
            Ok(())
        }
        Some(at) => {
            push_absent(alloc, tokens, assemblies, id, at, rows)?;
            Ok(())
        }
    }
}

/// The rows of these types, in their order.
fn rows_of(
    alloc: Global,
    tokens: &TypeTokens<'_>,
    assemblies: &[AssemblyRefRow],
    ids: &[TypeId],
) -> Result<Seq<TypeRefRow>, NoMemory>
    requires { AreTokens tokens.now }
    ensures { IfOk result (λ rows. rows ≡ flat_map (type_ref_by tokens.now assemblies.now) ids.now) }
{
    let mut rows = Seq::new(alloc);
    for id in ids {
        push_row(alloc, tokens, assemblies, *id, &mut rows)?;
    }
    Ok(rows)
}

/// The rows of the types that have one, in their order. `assemblies` are the AssemblyRef rows of the output.
pub fn type_ref_rows(
    alloc: Global,
    tokens: &TypeTokens<'_>,
    assemblies: &[AssemblyRefRow],
) -> Result<Seq<TypeRefRow>, NoMemory>
    requires { AreTokens tokens.now }
    ensures { IfOk result (λ rows. rows ≡ type_ref_rows_by tokens.now assemblies.now) }
{
    let refs = tokens.refs;
    let rows = rows_of(alloc, tokens, assemblies, refs.firsts())?;
    Ok(rows)
}
