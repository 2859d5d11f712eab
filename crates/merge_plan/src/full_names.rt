//! The names of types and of their assemblies, as the inputs have them.

ghost use Rattle.std.specs.Prelude.{◌≡◌, IfOk};
ghost use Rattle.std.specs.Option.{option_copied};
ghost use Rattle.rules.specs.type_rules.Texts.{full_name_of};
ghost use Rattle.rules.specs.type_rules.Rows.{type_row_at};
ghost use Rattle.il_base.specs.Flags.{access_of};
ghost use Rattle.resolver.specs.type_links.Index.{IsIndex};
ghost use Rattle.merge_plan.specs.OldNames.{types_of, AreOldNames};
ghost use Rattle.rules.specs.merge_rules.Names.{assembly_name, is_public, is_top_level, name_of, namespace_of, old_name};

use il_base::world_model::{AsmRec, TypeDefRow};
use il_base::{NoMemory, type_flags};
use resolver::type_links::TypeIndex;
use rules::link_rules::RowAt;
use std::alloc::Global;
use type_tables::member_search::linked::assembly_at;

/// The row of a type.
fn type_row(recs: &[AsmRec], at: RowAt) -> Option<&TypeDefRow>
    ensures { option_copied result ≡ type_row_at recs.now at }
{
    match assembly_at(recs, at.asm) {
        None => None,
        Some(rec) => rec.type_def.get(at.row as usize),
    }
}

/// Whether a type is there and isn't nested.
pub(crate) fn is_top_level(index: &TypeIndex<'_>, at: RowAt) -> bool
    requires { IsIndex index.now }
    ensures { result ≡ is_top_level index.now.all.now at }
{
    match assembly_at(index.all, at.asm) {
        None => false,
        Some(_) => match index.encloser(at.asm, at.row) {
            None => true,
            Some(_) => false,
        },
    }
}

/// The namespace of a type.
pub(crate) fn namespace_of(recs: &[AsmRec], at: RowAt) -> &[u8]
    ensures { result.now ≡ namespace_of recs.now at }
{
    match type_row(recs, at) {
        None => &[],
        Some(row) => row.namespace.as_slice(),
    }
}

/// The name of a type without its namespace.
pub(crate) fn name_of(recs: &[AsmRec], at: RowAt) -> &[u8]
    ensures { result.now ≡ name_of recs.now at }
{
    match type_row(recs, at) {
        None => &[],
        Some(row) => row.name.as_slice(),
    }
}

/// The name of the assembly of a row.
pub(crate) fn assembly_name(recs: &[AsmRec], at: RowAt) -> &[u8]
    ensures { result.now ≡ assembly_name recs.now at }
{
    match assembly_at(recs, at.asm) {
        None => &[],
        Some(rec) => match rec.assembly.get(0) {
            None => &[],
            Some(row) => row.name.as_slice(),
        },
    }
}

/// The visibility of a type: its low three flags (II.23.1.15).
fn visibility_of(word: u32) -> u32
    ensures { result ≡ access_of word }
{
    word % 8
}

/// Whether a type that isn't nested is public (II.23.1.15).
pub(crate) fn is_public(recs: &[AsmRec], at: RowAt) -> bool
    ensures { result ≡ is_public recs.now at }
{
    match type_row(recs, at) {
        None => false,
        Some(row) => visibility_of(row.flags) == type_flags::PUBLIC,
    }
}

/// A namespace, if there is one, a full stop and a name.
pub(crate) fn full_name_of(
    alloc: Global,
    namespace: &[u8],
    name: &[u8],
) -> Result<Vec<u8>, NoMemory>
    ensures { IfOk result (λ full. full.items ≡ full_name_of namespace.now name.now) }
{
    let mut full = Vec::new(alloc);
    if !namespace.is_empty() {
        full.extend_from_slice(namespace)?;
        full.push(b'.')?;
    }
    full.extend_from_slice(name)?;
    Ok(full)
}

/// The full name of a type.
fn old_name(alloc: Global, recs: &[AsmRec], at: RowAt) -> Result<Vec<u8>, NoMemory>
    ensures { IfOk result (λ full. full.items ≡ old_name recs.now at) }
{
    match type_row(recs, at) {
        None => Ok(Vec::new(alloc)),
        Some(row) => full_name_of(alloc, row.namespace.as_slice(), row.name.as_slice()),
    }
}

/// A type with its full name in the inputs.
#[derive(Drop)]
pub(crate) struct OldName {
    pub(crate) typ: RowAt,
    pub(crate) full: Vec<u8>,
}

/// Types with their full names.
pub(crate) fn old_names(
    alloc: Global,
    recs: &[AsmRec],
    types: &[RowAt],
) -> Result<Vec<OldName>, NoMemory>
    ensures types { IfOk result (λ old. types_of old.items ≡ types.now) }
    ensures names { IfOk result (λ old. AreOldNames recs.now old.items) }
{
    let mut old = Vec::new(alloc);
    for at in types {
        let full = old_name(alloc, recs, *at)?;
        old.push(OldName { typ: *at, full })?;
    }
    Ok(old)
}
