//! What a copied attribute may refer to.

ghost use Rattle.std.specs.Prelude.{◌≡◌, ℕ, Bool, slice_get, Some, IfOk};
ghost use Rattle.rules.specs.merge_rules.Attributes.{may_refer, may_name, may_have};
ghost use Rattle.std.specs.List.{list_all};
ghost use Rattle.resolver.specs.type_links.Index.{IsIndex};
ghost use Rattle.token_keys.specs.copied_attributes.Steps.{other_scope, step_of, says, by_ref};

use crate::copied_attributes::definitions::definition_of;
use crate::sig_numbers::numbers::add_numbers;
use il_base::world_model::{AsmRec, TypeRefRow, index_in, table_of};
use il_base::{NoMemory, Sig, table};
use resolver::type_links::TypeIndex;
use rules::link_rules::RowAt;
use std::alloc::Global;

/// Whether a reference may be copied, or the row by which this is decided.
#[derive(Clone, Copy)]
pub(crate) enum Step {
    Decided(bool),
    /// The row, from 0, that it has as its scope.
    AsOuter(u32),
}

/// Whether a scope that is no type is there: an assembly, or the module.
fn other_scope(rec: &AsmRec, scope: u32) -> bool
    ensures { result ≡ other_scope rec.now scope }
{
    let of = table_of(scope);
    if of == table::ASSEMBLY_REF {
        match index_in(table::ASSEMBLY_REF, scope) {
            None => false,
            Some(k) => match rec.assembly_ref.get(k as usize) {
                None => false,
                Some(_) => true,
            },
        }
    } else {
        of == table::MODULE
    }
}

/// A row that names nothing, by its scope.
fn scope_step(rec: &AsmRec, k: u32) -> Step
    ensures { result ≡ step_of rec.now k }
{
    match rec.type_ref.get(k as usize) {
        None => Step::Decided(false),
        Some(row) => match index_in(table::TYPE_REF, row.resolution_scope) {
            None => Step::Decided(other_scope(rec, row.resolution_scope)),
            Some(outer) => Step::AsOuter(outer),
        },
    }
}

/// A row, by what it names and by its scope.
fn ref_step(
    alloc: Global,
    index: &TypeIndex<'_>,
    a: u32,
    rec: &AsmRec,
    k: u32,
) -> Result<Step, NoMemory>
    requires index { IsIndex index.now }
    requires stands { slice_get index.now.all.now a ≡ Some rec.now }
    ensures { IfOk result (λ s. (outer : ℕ → Bool) → says outer s ≡ by_ref index.now.all.now a rec.now outer k) }
{
    let def = definition_of(alloc, index, RowAt { asm: a, row: k })?;
    match def {
        Some(def) => Ok(Step::Decided(def.asm as usize + 1 == index.all.len())),
        None => Ok(scope_step(rec, k)),
    }
}

/// Whether a TypeRef row names a type of the core library, or nothing, and has such a scope; over at most `most` scopes.
pub(crate) fn may_refer(
    alloc: Global,
    index: &TypeIndex<'_>,
    a: u32,
    rec: &AsmRec,
    most: usize,
    k: u32,
) -> Result<bool, NoMemory>
    requires index { IsIndex index.now }
    requires stands { slice_get index.now.all.now a ≡ Some rec.now }
    ensures { IfOk result (λ b. b ≡ may_refer index.now.all.now a rec.now most k) }
{
    let mut at = k;
    for i in 0..most {
        match ref_step(alloc, index, a, rec, at) {
            Ok(Step::Decided(may)) => return Ok(may),
            Ok(Step::AsOuter(outer)) => at = outer,
            Err(error) => return Err(error),
        }
    }
    Ok(false)
}

/// Whether a token is that of a TypeRef row to which it may refer.
pub(crate) fn may_name(
    alloc: Global,
    index: &TypeIndex<'_>,
    a: u32,
    rec: &AsmRec,
    token: u32,
) -> Result<bool, NoMemory>
    requires index { IsIndex index.now }
    requires stands { slice_get index.now.all.now a ≡ Some rec.now }
    ensures { IfOk result (λ b. b ≡ may_name index.now.all.now a rec.now token) }
{
    match index_in(table::TYPE_REF, token) {
        None => Ok(false),
        Some(k) => {
            let may = may_refer(alloc, index, a, rec, rec.type_ref.len(), k)?;
            Ok(may)
        }
    }
}

/// Whether it may name each of these tokens.
fn may_name_all(
    alloc: Global,
    index: &TypeIndex<'_>,
    a: u32,
    rec: &AsmRec,
    tokens: &[u32],
) -> Result<bool, NoMemory>
    requires index { IsIndex index.now }
    requires stands { slice_get index.now.all.now a ≡ Some rec.now }
    ensures { IfOk result (λ b. b ≡ list_all (may_name index.now.all.now a rec.now) tokens.now) }
{
    for token in tokens {
        let may = may_name(alloc, index, a, rec, *token)?;
        if !may {
            return Ok(false);
        }
    }
    Ok(true)
}

/// Whether it may have this signature: each token of it.
pub(crate) fn may_have(
    alloc: Global,
    index: &TypeIndex<'_>,
    a: u32,
    rec: &AsmRec,
    sig: &Sig,
) -> Result<bool, NoMemory>
    requires index { IsIndex index.now }
    requires stands { slice_get index.now.all.now a ≡ Some rec.now }
    ensures { IfOk result (λ b. b ≡ may_have index.now.all.now a rec.now sig.now) }
{
    let mut tokens = Vec::new(alloc);
    add_numbers(&mut tokens, sig)?;
    let may = may_name_all(alloc, index, a, rec, tokens.as_slice())?;
    Ok(may)
}
