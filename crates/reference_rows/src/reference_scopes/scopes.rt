//! What TypeRef rows have as their scopes, type by type.

ghost use Rattle.std.specs.Prelude.{◌≡◌, ◌++◌, IfOk, OnOk};
ghost use Rattle.rules.specs.link_rules.Cycles.{listed};
ghost use Rattle.resolver.specs.type_links.Index.{IsIndex};
ghost use Rattle.rules.specs.merge_rules.Absent.{bare, assembly_scope};
ghost use Rattle.rules.specs.merge_rules.Refs.{is_reference, scope_type, with_scopes, most_scopes, assemblies_of, own_scope};
ghost use Rattle.il_base.specs.declared.ids.Item.TheVariants as item;
ghost use Rattle.rules.specs.mark_rules.Places.{is_core};
ghost use Rattle.std.specs.Option.{option_map};
ghost use Rattle.reference_rows.specs.reference_scopes.Scopes.{recs_of, IsScopes, core_assemblies};

use crate::reference_scopes::around::scope_type;
use crate::reference_scopes::chains::push_with_scopes;
use il_base::world_model::{AsmRec, AssemblyRefRow};
use il_base::{NoMemory, TypeId};
use resolver::type_links::TypeIndex;
use rules::link_rules::RowAt;
use std::alloc::Global;
use token_keys::absent_types::references::References;
use token_keys::absent_types::rows::{assembly_scope, reference_at};
use token_keys::core_scopes::assemblies::bare;
use token_keys::core_scopes::scopes::CoreScopes;
use type_tables::member_search::homes::type_home;

/// The TypeRef rows of the inputs that name nothing, and the assemblies of types of the core library.
#[derive(Drop)]
pub struct Scopes<'a> {
    pub references: References<'a>,
    pub core: CoreScopes,
}

/// Whether a type is the core library's.
#[tactic(auto, unfolding(rules::specs::mark_rules::Places::is_core, rules::specs::mark_rules::Places::row_of))]
fn is_core(recs: &[AsmRec], id: TypeId) -> Result<bool, NoMemory>
    ensures { IfOk result (λ b. b ≡ is_core recs.now (item.Typ id)) }
{
    let home = type_home(recs, id)?;
    match home {
        None => Ok(false),
        Some(at) => Ok(at.asm as usize + 1 == recs.len()),
    }
}

impl<'a> Scopes<'a> {
    /// Those of the assemblies of an index.
    pub fn of(alloc: Global, index: &'a TypeIndex<'a>) -> Result<Scopes<'a>, NoMemory>
        requires { IsIndex index.now }
        ensures is { IfOk result IsScopes }
        ensures all { IfOk result (λ s. recs_of s ≡ index.now.all.now) }
    {
        let references = References::of(alloc, index)?;
        let core = CoreScopes::of(alloc, index)?;
        Ok(Scopes { references, core })
    }

    /// Whether a type has a TypeRef row where the output refers to it: it is the core library's, or isn't there.
    pub fn is_reference(&self, id: TypeId) -> Result<bool, NoMemory>
        requires { IsScopes self.now }
        ensures { IfOk result (λ b. b ≡ is_reference (recs_of self.now) id) }
    {
        if self.references.types <= id.0 {
            return Ok(true);
        }
        let core = is_core(self.references.index.all, id)?;
        Ok(core)
    }

    /// The type that the TypeRef row of a type has as its scope.
    pub fn scope_type(&self, alloc: Global, id: TypeId) -> Result<Option<TypeId>, NoMemory>
        requires { IsScopes self.now }
        ensures { IfOk result (λ around. around ≡ scope_type (recs_of self.now) id) }
    {
        let around = scope_type(alloc, &self.references, id)?;
        Ok(around)
    }

    /// How many scopes a chain can have: there are no more types and references.
    fn most_scopes(&self) -> Result<usize, NoMemory>
        requires { IsScopes self.now }
        ensures { IfOk result (λ n. n ≡ most_scopes (recs_of self.now)) }
    {
        match (self.references.types as usize).checked_add(self.references.rows.len()) {
            Some(most) => Ok(most),
            None => Err(NoMemory),
        }
    }

    /// Puts a type at the end after the types around it, the outermost first.
    pub fn push_with_scopes(
        &self,
        alloc: Global,
        id: TypeId,
        types: &mut Vec<TypeId>,
    ) -> Result<(), NoMemory>
        requires { IsScopes self.now }
        ensures { OnOk result (types.new.items ≡ types.old.items ++ with_scopes (recs_of self.now) (most_scopes (recs_of self.now)) id) }
    {
        let most = self.most_scopes()?;
        push_with_scopes(alloc, &self.references, most, id, types)?;
        Ok(())
    }

    /// The assembly that the TypeRef row of a type has as its scope; None where that is a type or the module.
    pub fn assembly_of(&self, alloc: Global, id: TypeId) -> Result<Option<AssemblyRefRow>, NoMemory>
        requires { IsScopes self.now }
        ensures { IfOk result (λ row. listed row ≡ assemblies_of (recs_of self.now) id) }
    {
        match self.references.absent_row(id) {
            Some(at) => {
                let row = bare_scope(alloc, self.references.index.all, at)?;
                Ok(row)
            }
            None => {
                let row = self.core_scope(alloc, id)?;
                Ok(row)
            }
        }
    }

    /// The assembly of a type of the core library that is in no other type.
    fn core_scope(&self, alloc: Global, id: TypeId) -> Result<Option<AssemblyRefRow>, NoMemory>
        requires { IsScopes self.now }
        ensures { IfOk result (λ row. listed row ≡ core_assemblies (recs_of self.now) id) }
    {
        let around = self.scope_type(alloc, id)?;
        match around {
            Some(_) => Ok(None),
            None => {
                let row = self.core.scope_of(alloc, self.references.index.all, id)?;
                Ok(Some(row))
            }
        }
    }

    /// The scope that the TypeRef row of a type keeps which has no type and no assembly as its scope: 0, or the module (II.22.38).
    pub fn own_scope(&self, id: TypeId) -> u32
        requires { IsScopes self.now }
        ensures { result ≡ own_scope (recs_of self.now) id }
    {
        match self.references.absent_row(id) {
            None => 0,
            Some(at) => match reference_at(self.references.index.all, at) {
                None => 0,
                Some(row) => row.resolution_scope,
            },
        }
    }
}

/// The assembly that a TypeRef row has as its scope, without its hash.
fn bare_scope(alloc: Global, recs: &[AsmRec], at: RowAt) -> Result<Option<AssemblyRefRow>, NoMemory>
    ensures { IfOk result (λ row. row ≡ option_map bare (assembly_scope recs.now at)) }
{
    match assembly_scope(recs, at) {
        None => Ok(None),
        Some(row) => {
            let row = bare(alloc, row)?;
            Ok(Some(row))
        }
    }
}
