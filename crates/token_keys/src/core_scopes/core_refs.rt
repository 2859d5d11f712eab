//! TypeRef rows (II.22.38) whose scope is a reference to the core library.

ghost use Rattle.std.specs.Prelude.{◌≡◌, ◌-◌, ◌++◌, length, map, take, IfOk, OnOk};
ghost use Rattle.std.specs.Option.{option_copied};
ghost use Rattle.resolver.specs.type_links.Index.{IsIndex};
ghost use Rattle.token_keys.specs.core_scopes.CoreRefs.{told, scope_row, named_from, core_refs_of, core_refs_in, all_core_refs};

use il_base::world_model::{AsmRec, AssemblyRefRow, TypeRefRow, index_in, is_core_scope};
use il_base::{NoMemory, table};
use resolver::type_links::{TypeIndex, TypeName, assembly_named};
use rules::link_rules::RowAt;
use std::alloc::Global;
use type_tables::member_search::counted::row_of;

/// A type that a TypeRef row names.
#[derive(Drop)]
pub(crate) struct CoreRef<'a> {
    pub(crate) typ: RowAt,
    /// Through which assembly.
    pub(crate) by: &'a AssemblyRefRow,
}

/// The AssemblyRef row that a scope names.
fn scope_row(rec: &AsmRec, scope: u32) -> Option<&AssemblyRefRow>
    ensures { option_copied result ≡ scope_row rec.now scope }
{
    match index_in(table::ASSEMBLY_REF, scope) {
        None => None,
        Some(at) => rec.assembly_ref.get(at as usize),
    }
}

/// The type that isn't nested that a row names through an assembly.
fn named_from(
    index: &TypeIndex<'_>,
    row: &TypeRefRow,
    by: &AssemblyRefRow,
) -> Result<Option<RowAt>, NoMemory>
    requires { IsIndex index.now }
    ensures { IfOk result (λ at. at ≡ named_from index.now.all.now row.now by.now) }
{
    let Some(asm) = assembly_named(index.all, by.name.as_slice()) else {
        return Ok(None);
    };
    let name = TypeName {
        namespace: row.namespace.as_slice(),
        name: row.name.as_slice(),
    };
    Ok(index.top_type(row_of(asm)?, name))
}

/// Puts a row at the end that names a type through a reference to the core library.
fn push_ref<'a>(
    index: &TypeIndex<'_>,
    rec: &'a AsmRec,
    row: &TypeRefRow,
    refs: &mut Vec<CoreRef<'a>>,
) -> Result<(), NoMemory>
    requires { IsIndex index.now }
    ensures { OnOk result (map told refs.new.items ≡ map told refs.old.items ++ core_refs_of index.now.all.now rec.now row.now) }
{
    if !is_core_scope(rec, row.resolution_scope) {
        return Ok(());
    }
    let Some(by) = scope_row(rec, row.resolution_scope) else {
        return Ok(());
    };
    let named = named_from(index, row, by)?;
    if let Some(typ) = named {
        refs.push(CoreRef { typ, by })?;
    }
    Ok(())
}

/// Puts the rows of an assembly at the end.
fn push_refs<'a>(
    index: &TypeIndex<'_>,
    rec: &'a AsmRec,
    refs: &mut Vec<CoreRef<'a>>,
) -> Result<(), NoMemory>
    requires { IsIndex index.now }
    ensures { OnOk result (map told refs.new.items ≡ map told refs.old.items ++ core_refs_in index.now.all.now rec.now) }
{
    for row in rec.type_ref.as_slice() {
        push_ref(index, rec, row, refs)?;
    }
    Ok(())
}

/// All assemblies but the core library, which is the last.
fn inputs(recs: &[AsmRec]) -> &[AsmRec]
    ensures { result.now ≡ take (length recs.now - 1) recs.now }
{
    &recs[..recs.len().saturating_sub(1)]
}

/// The rows of all inputs, in word and row order.
pub(crate) fn core_refs<'a>(
    alloc: Global,
    index: &TypeIndex<'_>,
    recs: &'a [AsmRec],
) -> Result<Vec<CoreRef<'a>>, NoMemory>
    requires index { IsIndex index.now }
    requires all { recs.now ≡ index.now.all.now }
    ensures { IfOk result (λ refs. map told refs.items ≡ all_core_refs recs.now) }
{
    let mut refs = Vec::new(alloc);
    for rec in inputs(recs) {
        push_refs(index, rec, &mut refs)?;
    }
    Ok(refs)
}
