//! Whether the scopes of two TypeRef rows read the same, or by which rows this is decided.

ghost use Rattle.std.specs.Prelude.{◌≡◌, ◌==◌, ◌&&◌, Bool, IfOk};
ghost use Rattle.std.specs.Option.{option_copied};
ghost use Rattle.il_base.specs.world_model.Core.{same_name};
ghost use Rattle.rules.specs.declared.link_rules.row_at.RowAt.{RowAt};
ghost use Rattle.resolver.specs.type_links.Index.{IsIndex};
ghost use Rattle.rules.specs.merge_rules.Absent.{same_assembly, both, reference_at, assembly_scope, same_outer, same_scope, rows_same};
ghost use Rattle.token_keys.specs.absent_types.Steps.{says};

use crate::absent_types::rows::{
    assembly_scope, definition_of, reference_at, reference_scope, same_assembly,
};
use il_base::NoMemory;
use il_base::world_model::{AsmRec, AssemblyRefRow, TypeRefRow};
use resolver::type_links::TypeIndex;
use rules::link_rules::RowAt;
use std::alloc::Global;

/// Whether two rows read the same, or the rows by which this is decided.
#[derive(Clone, Copy)]
pub(crate) enum Step {
    Decided(bool),
    /// The same as these two.
    AsOuter(RowAt, RowAt),
}

/// Whether two rows are one.
fn same_row(x: RowAt, y: RowAt) -> bool
    ensures { result ≡ (x.asm == y.asm && x.row == y.row) }
{
    x.asm == y.asm && x.row == y.row
}

/// Two TypeRef rows that others have as their scopes.
fn outer_step(alloc: Global, index: &TypeIndex<'_>, x: RowAt, y: RowAt) -> Result<Step, NoMemory>
    requires { IsIndex index.now }
    ensures { IfOk result (λ s. (reads : RowAt → RowAt → Bool) → says reads s ≡ same_outer index.now.all.now reads x y) }
{
    let def = definition_of(alloc, index, x)?;
    let other = definition_of(alloc, index, y)?;
    match def {
        Some(def) => match other {
            Some(other) => Ok(Step::Decided(same_row(def, other))),
            None => Ok(Step::Decided(false)),
        },
        None => match other {
            Some(_) => Ok(Step::Decided(false)),
            None => Ok(Step::AsOuter(x, y)),
        },
    }
}

/// Whether two rows that no row has as its scope have scopes that read the same.
fn last_scopes(
    scope: Option<&AssemblyRefRow>,
    other: Option<&AssemblyRefRow>,
    same_token: bool,
) -> bool
    ensures { result ≡ both same_assembly (option_copied scope.entry) (option_copied other.entry) same_token }
{
    match scope {
        Some(scope) => match other {
            Some(other) => same_assembly(scope, other),
            None => false,
        },
        None => match other {
            Some(_) => false,
            None => same_token,
        },
    }
}

/// Whether two rows have assemblies as their scopes that read the same, or the same other scope.
fn assembly_scopes(recs: &[AsmRec], x: RowAt, y: RowAt, same_token: bool) -> bool
    ensures { result ≡ both same_assembly (assembly_scope recs.now x) (assembly_scope recs.now y) same_token }
{
    last_scopes(assembly_scope(recs, x), assembly_scope(recs, y), same_token)
}

/// The scopes of two rows.
fn scope_step(
    alloc: Global,
    index: &TypeIndex<'_>,
    x: RowAt,
    y: RowAt,
    row: &TypeRefRow,
    other: &TypeRefRow,
) -> Result<Step, NoMemory>
    requires { IsIndex index.now }
    ensures { IfOk result (λ s. (reads : RowAt → RowAt → Bool) → says reads s ≡ same_scope index.now.all.now reads x y row.now other.now) }
{
    let scope = reference_scope(index.all, x);
    let other_scope = reference_scope(index.all, y);
    match scope {
        Some(scope) => match other_scope {
            Some(other_scope) => outer_step(alloc, index, scope, other_scope),
            None => Ok(Step::Decided(false)),
        },
        None => match other_scope {
            Some(_) => Ok(Step::Decided(false)),
            None => {
                let same_token = row.resolution_scope == other.resolution_scope;
                Ok(Step::Decided(assembly_scopes(index.all, x, y, same_token)))
            }
        },
    }
}

/// Whether two rows have the same name and namespace.
fn same_names(row: &TypeRefRow, other: &TypeRefRow) -> bool
    ensures { result ≡ (same_name row.now.name other.now.name && same_name row.now.namespace other.now.namespace) }
{
    row.name.as_slice() == other.name.as_slice()
        && row.namespace.as_slice() == other.namespace.as_slice()
}

/// Two rows.
pub(crate) fn row_step(
    alloc: Global,
    index: &TypeIndex<'_>,
    x: RowAt,
    y: RowAt,
) -> Result<Step, NoMemory>
    requires { IsIndex index.now }
    ensures { IfOk result (λ s. (reads : RowAt → RowAt → Bool) → says reads s ≡ rows_same index.now.all.now reads x y (reference_at index.now.all.now x) (reference_at index.now.all.now y)) }
{
    let Some(row) = reference_at(index.all, x) else {
        return Ok(Step::Decided(false));
    };
    let Some(other) = reference_at(index.all, y) else {
        return Ok(Step::Decided(false));
    };
    let same = same_names(row, other);
    if !same {
        return Ok(Step::Decided(false));
    }
    scope_step(alloc, index, x, y, row, other)
}
