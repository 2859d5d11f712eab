//! The type around a type.

ghost use Rattle.std.specs.Prelude.{◌≡◌, IfOk};
ghost use Rattle.std.specs.Option.{option_and_then};
ghost use Rattle.rules.specs.link_rules.Members.{type_home};
ghost use Rattle.resolver.specs.type_links.Index.{IsIndex};
ghost use Rattle.rules.specs.merge_rules.Absent.{reference_scope};
ghost use Rattle.rules.specs.merge_rules.Refs.{enclosing_type, outer_reference, scope_type};
ghost use Rattle.token_keys.specs.absent_types.References.{IsReferences};

use crate::reference_scopes::ids::id_of;
use il_base::{NoMemory, TypeId};
use resolver::type_links::TypeIndex;
use rules::link_rules::RowAt;
use std::alloc::Global;
use token_keys::absent_types::references::References;
use token_keys::absent_types::rows::{definition_of, reference_scope};
use type_tables::member_search::homes::type_home;

/// The type that encloses the type in a row.
#[tactic(auto, using(crate::proofs::lemmas::reference_scopes::Enclosing::none_around, crate::proofs::lemmas::reference_scopes::Enclosing::some_around))]
fn enclosing_type(index: &TypeIndex<'_>, at: RowAt) -> Result<Option<TypeId>, NoMemory>
    requires { IsIndex index.now }
    ensures { IfOk result (λ id. id ≡ enclosing_type index.now.all.now at) }
{
    match index.encloser(at.asm, at.row) {
        None => Ok(None),
        Some(row) => {
            let id = id_of(index.all, RowAt { asm: at.asm, row })?;
            Ok(Some(id))
        }
    }
}

/// The type of a TypeRef row that another has as its scope.
fn outer_reference(
    alloc: Global,
    references: &References<'_>,
    at: RowAt,
) -> Result<Option<TypeId>, NoMemory>
    requires { IsReferences references.now }
    ensures { IfOk result (λ id. id ≡ outer_reference references.now.index.now.all.now at) }
{
    let def = definition_of(alloc, references.index, at)?;
    match def {
        Some(def) => {
            let id = id_of(references.index.all, def)?;
            Ok(Some(id))
        }
        None => {
            let absent = references.absent_type(alloc, at)?;
            Ok(absent)
        }
    }
}

/// Around a type of the world.
fn around_found(index: &TypeIndex<'_>, id: TypeId) -> Result<Option<TypeId>, NoMemory>
    requires { IsIndex index.now }
    ensures { IfOk result (λ around. around ≡ option_and_then (enclosing_type index.now.all.now) (type_home index.now.all.now id)) }
{
    let home = type_home(index.all, id)?;
    match home {
        None => Ok(None),
        Some(at) => {
            let around = enclosing_type(index, at)?;
            Ok(around)
        }
    }
}

/// Around a TypeRef row that names nothing.
fn around_absent(
    alloc: Global,
    references: &References<'_>,
    at: RowAt,
) -> Result<Option<TypeId>, NoMemory>
    requires { IsReferences references.now }
    ensures { IfOk result (λ around. around ≡ option_and_then (outer_reference references.now.index.now.all.now) (reference_scope references.now.index.now.all.now at)) }
{
    match reference_scope(references.index.all, at) {
        None => Ok(None),
        Some(outer) => {
            let around = outer_reference(alloc, references, outer)?;
            Ok(around)
        }
    }
}

/// The type that a TypeRef row has as its scope: that of its encloser, and of what names nothing the one that the inputs have.
#[tactic(auto, unfolding(rules::specs::merge_rules::Refs::scope_type))]
pub(crate) fn scope_type(
    alloc: Global,
    references: &References<'_>,
    id: TypeId,
) -> Result<Option<TypeId>, NoMemory>
    requires { IsReferences references.now }
    ensures { IfOk result (λ around. around ≡ scope_type references.now.index.now.all.now id) }
{
    match references.absent_row(id) {
        None => {
            let around = around_found(references.index, id)?;
            Ok(around)
        }
        Some(at) => {
            let around = around_absent(alloc, references, at)?;
            Ok(around)
        }
    }
}
