//! Tokens by keys.

ghost use Rattle.std.specs.Prelude.{◌≡◌, IfOk};
ghost use Rattle.rules.specs.merge_rules.Refs.{a_method, a_field};
ghost use Rattle.token_keys.specs.key_codes.Keys as coded;
ghost use Rattle.reference_rows.specs.key_tokens.Keys.{AreKeyTokens, key_token_by, member_token_by, absent_token_by, method_token_by, field_token_by, instance_token_by, locals_token_by};

use crate::key_tokens::kept::{kept_field, kept_method};
use crate::tokens::TypeTokens;
use il_base::world_model::TypeExpr;
use il_base::{FieldId, MethodId, NoMemory, Sig};
use merge_plan::Numbers;
use std::alloc::Global;
use token_keys::key_codes::keys::{
    AbsentMethod, FieldKey, InstanceKey, MemberKey, MethodKey, TypeKey,
};
use token_keys::key_copies::keys::copy_absent;
use token_keys::met_keys::instances::MetInstances;
use token_keys::met_keys::lists::MetLists;
use token_keys::met_keys::members::MetMembers;
use token_keys::met_keys::sigs::MetSigs;

/// What the tokens of keys are made of.
#[derive(Clone, Copy)]
pub struct KeyTokens<'a> {
    pub types: TypeTokens<'a>,
    /// The kept rows of MethodDef.
    pub methods: &'a Numbers,
    /// The kept rows of Field.
    pub fields: &'a Numbers,
    /// The signatures that have TypeSpec rows.
    pub specs: &'a MetSigs,
    /// The members that have MemberRef rows.
    pub members: &'a MetMembers,
    /// The methods with arguments, which have MethodSpec rows.
    pub instances: &'a MetInstances,
    /// The locals that have StandAloneSig rows.
    pub locals: &'a MetLists,
}

impl<'a> KeyTokens<'a> {
    /// The token of a type, or of a signature's TypeSpec row; 0 for one that has no row.
    #[tactic(auto, unfolding(crate::specs::key_tokens::Keys::key_token_by))]
    pub fn of_type(&self, alloc: Global, key: &TypeKey) -> Result<u32, NoMemory>
        requires { AreKeyTokens self.now }
        ensures { IfOk result (λ token. token ≡ key_token_by self.now (coded.type_key key.now)) }
    {
        match key {
            TypeKey::Named(id) => {
                let token = self.types.type_token(alloc, *id)?;
                Ok(token)
            }
            TypeKey::Spec(sig) => {
                let token = self.specs.token(alloc, sig)?;
                Ok(token)
            }
        }
    }

    /// The token of the MemberRef row of a method with the type in which it is found.
    fn found_method(&self, alloc: Global, id: MethodId, owner: &TypeExpr) -> Result<u32, NoMemory>
        requires { AreKeyTokens self.now }
        ensures { IfOk result (λ token. token ≡ member_token_by self.now (a_method id owner.now)) }
    {
        let owner = owner.copy(alloc)?;
        let key = MemberKey::Method(id, owner);
        let token = self.members.token(alloc, &key)?;
        Ok(token)
    }

    /// The token of the MemberRef row of a field with the type in which it is found.
    fn found_field(&self, alloc: Global, id: FieldId, owner: &TypeExpr) -> Result<u32, NoMemory>
        requires { AreKeyTokens self.now }
        ensures { IfOk result (λ token. token ≡ member_token_by self.now (a_field id owner.now)) }
    {
        let owner = owner.copy(alloc)?;
        let key = MemberKey::Field(id, owner);
        let token = self.members.token(alloc, &key)?;
        Ok(token)
    }

    /// The token of the MemberRef row of a method that names nothing.
    fn absent_method(&self, alloc: Global, method: &AbsentMethod) -> Result<u32, NoMemory>
        requires { AreKeyTokens self.now }
        ensures { IfOk result (λ token. token ≡ absent_token_by self.now method.now) }
    {
        let copy = copy_absent(alloc, method)?;
        let key = MemberKey::Absent(copy);
        let token = self.members.token(alloc, &key)?;
        Ok(token)
    }

    /// The token of a method: of a definition that is named by its own token its MethodDef row, of any other its MemberRef row; 0 for one
    /// that has no row.
    #[tactic(auto, unfolding(crate::specs::key_tokens::Keys::method_token_by))]
    pub fn of_method(&self, alloc: Global, key: &MethodKey) -> Result<u32, NoMemory>
        requires { AreKeyTokens self.now }
        ensures { IfOk result (λ token. token ≡ method_token_by self.now (coded.method_key key.now)) }
    {
        match key {
            MethodKey::Own(id) => {
                let scopes = self.types.scopes;
                let token = kept_method(scopes.references.index.all, self.methods, *id)?;
                Ok(token)
            }
            MethodKey::Found(id, owner) => {
                let token = self.found_method(alloc, *id, owner)?;
                Ok(token)
            }
            MethodKey::Absent(method) => {
                let token = self.absent_method(alloc, method)?;
                Ok(token)
            }
        }
    }

    /// The token of a field: of a definition that is named by its own token its Field row, of any other its MemberRef row; 0 for one that
    /// has no row.
    #[tactic(auto, unfolding(crate::specs::key_tokens::Keys::field_token_by))]
    pub fn of_field(&self, alloc: Global, key: &FieldKey) -> Result<u32, NoMemory>
        requires { AreKeyTokens self.now }
        ensures { IfOk result (λ token. token ≡ field_token_by self.now (coded.field_key key.now)) }
    {
        match key {
            FieldKey::Own(id) => {
                let scopes = self.types.scopes;
                let token = kept_field(scopes.references.index.all, self.fields, *id)?;
                Ok(token)
            }
            FieldKey::Found(id, owner) => {
                let token = self.found_field(alloc, *id, owner)?;
                Ok(token)
            }
        }
    }

    /// The token of the MethodSpec row of a method with arguments; 0 for one that has none.
    pub fn of_instance(&self, alloc: Global, key: &InstanceKey) -> Result<u32, NoMemory>
        requires { AreKeyTokens self.now }
        ensures { IfOk result (λ token. token ≡ instance_token_by self.now (coded.instance_key key.now)) }
    {
        let token = self.instances.token(alloc, key)?;
        Ok(token)
    }

    /// The token of the StandAloneSig row of locals; 0 for ones that have none.
    pub fn of_locals(&self, alloc: Global, sigs: &[Sig]) -> Result<u32, NoMemory>
        requires { AreKeyTokens self.now }
        ensures { IfOk result (λ token. token ≡ locals_token_by self.now sigs.now) }
    {
        let token = self.locals.token(alloc, sigs)?;
        Ok(token)
    }
}
