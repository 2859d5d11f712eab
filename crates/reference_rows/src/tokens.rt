//! The tokens of types.

ghost use Rattle.std.specs.Prelude.{◌≡◌, Some, IfOk};
ghost use Rattle.il_base.specs.declared.table.TheConstants.{TYPE_DEF};
ghost use Rattle.rules.specs.merge_rules.Refs.{kept_token, first_or, assemblies_of, own_scope};
ghost use Rattle.std.specs.Prelude.{map};
ghost use Rattle.reference_rows.specs.reference_scopes.Scopes.{recs_of};
ghost use Rattle.reference_rows.specs.reference_assemblies.Assemblies.{assembly_token_by};
ghost use Rattle.reference_rows.specs.Types.{AreTokens, kept_type_token, type_token_by, other_scope_by, scope_token_by};

use crate::reference_assemblies::assemblies::assembly_token;
use crate::reference_scopes::scopes::Scopes;
use il_base::world_model::{AsmRec, AssemblyRefRow};
use il_base::{NoMemory, TypeId, table};
use merge_plan::Numbers;
use rules::link_rules::RowAt;
use std::alloc::Global;
use token_keys::met_keys::row_tokens::row_token;
use token_keys::met_keys::types::MetTypes;
use type_tables::member_search::homes::type_home;

/// What the tokens of types are made of.
#[derive(Clone, Copy)]
pub struct TypeTokens<'a> {
    pub scopes: &'a Scopes<'a>,
    /// The types that have TypeRef rows.
    pub refs: &'a MetTypes,
    /// The kept rows of TypeDef.
    pub kept: &'a Numbers,
}

/// The token of a kept row of a table; 0 for a row that goes.
pub fn kept_token(table: u8, kept: &Numbers, at: RowAt) -> Result<u32, NoMemory>
    ensures { IfOk result (λ token. token ≡ kept_token table kept.now (Some at)) }
{
    let place = match kept.new_row(at) {
        None => None,
        Some(row) => Some(row as usize),
    };
    let token = row_token(table, place)?;
    Ok(token)
}

/// The token of a type of an input; 0 for one that goes.
fn definition_token(recs: &[AsmRec], kept: &Numbers, id: TypeId) -> Result<u32, NoMemory>
    ensures { IfOk result (λ token. token ≡ kept_type_token recs.now kept.now id) }
{
    let home = type_home(recs, id)?;
    match home {
        None => Ok(0),
        Some(at) => {
            let token = kept_token(table::TYPE_DEF, kept, at)?;
            Ok(token)
        }
    }
}

impl<'a> TypeTokens<'a> {
    /// The token of a type: of one of an input its TypeDef row, of one of the core library and one that isn't there its TypeRef row; 0
    /// for one that has none.
    #[tactic(auto, unfolding(crate::specs::Types::type_token_by))]
    pub fn type_token(&self, alloc: Global, id: TypeId) -> Result<u32, NoMemory>
        requires { AreTokens self.now }
        ensures { IfOk result (λ token. token ≡ type_token_by self.now id) }
    {
        let reference = self.scopes.is_reference(id)?;
        if reference {
            let token = self.refs.token(alloc, id)?;
            return Ok(token);
        }
        let scopes = self.scopes;
        let token = definition_token(scopes.references.index.all, self.kept, id)?;
        Ok(token)
    }

    /// The scope of a type that is in no other.
    fn other_scope(
        &self,
        alloc: Global,
        assemblies: &[AssemblyRefRow],
        id: TypeId,
    ) -> Result<u32, NoMemory>
        requires { AreTokens self.now }
        ensures { IfOk result (λ token. token ≡ other_scope_by self.now assemblies.now id) }
    {
        let found = self.scopes.assembly_of(alloc, id)?;
        match &found {
            None => Ok(self.scopes.own_scope(id)),
            Some(row) => {
                let token = assembly_token(assemblies, row)?;
                Ok(token)
            }
        }
    }

    /// The scope of the TypeRef row of a type. `assemblies` are the AssemblyRef rows of the output.
    pub fn scope_token(
        &self,
        alloc: Global,
        assemblies: &[AssemblyRefRow],
        id: TypeId,
    ) -> Result<u32, NoMemory>
        requires { AreTokens self.now }
        ensures { IfOk result (λ token. token ≡ scope_token_by self.now assemblies.now id) }
    {
        let around = self.scopes.scope_type(alloc, id)?;
        match around {
            Some(around) => {
                let token = self.type_token(alloc, around)?;
                Ok(token)
            }
            None => {
                let token = self.other_scope(alloc, assemblies, id)?;
                Ok(token)
            }
        }
    }
}
