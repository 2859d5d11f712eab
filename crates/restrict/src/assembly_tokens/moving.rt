//! What a token of an assembly becomes.

ghost use Rattle.std.specs.Prelude.{◌≡◌, slice_get, IfOk};
ghost use Rattle.std.specs.Option.{option_copied, option_and_then};
ghost use Rattle.il_base.specs.declared.table.TheConstants.{STAND_ALONE_SIG};
ghost use Rattle.il_base.specs.world_model.Tokens.{index_in};
ghost use Rattle.restrict.specs.assembly_tokens.Tokens.{IsMoving, class_by, modifier_by, type_by, instance_by, method_by, callee_by, field_by, locals_row_by, locals_by};

use il_base::world_model::{AsmRec, Known, StandAloneSigRow, index_in, table_of};
use il_base::{NoMemory, table};
use merge_plan::moved_parts::NewTokens;
use reference_rows::key_tokens::KeyTokens;
use std::alloc::Global;
use token_keys::keys::Keys;
use token_keys::members::{field_key, instance_key, method_key};
use token_keys::sigs::world_sigs;
use token_keys::types::type_key;

/// An assembly with what its tokens have keys by, and the tokens of the output.
#[derive(Clone, Copy)]
pub struct Moving<'a> {
    pub keys: Keys<'a>,
    pub tokens: KeyTokens<'a>,
    /// The tokens of types by their numbers.
    pub numbers: &'a NewTokens,
}

impl<'a> Moving<'a> {
    /// What the token of a class or a value type in a signature becomes.
    pub(crate) fn class(&self, token: u32) -> u32
        requires { IsMoving self.now }
        ensures { result ≡ class_by self.now token }
    {
        let old = self.keys.numbers;
        let new = self.numbers;
        new.classes.get(old.classes.get(token))
    }

    /// What the token of a modifier in a signature becomes.
    pub(crate) fn modifier(&self, token: u32) -> u32
        requires { IsMoving self.now }
        ensures { result ≡ modifier_by self.now token }
    {
        let old = self.keys.numbers;
        let new = self.numbers;
        new.modifiers.get(old.modifiers.get(token))
    }

    /// What a TypeDef, TypeRef or TypeSpec token in code or a row becomes.
    pub(crate) fn of_type(&self, alloc: Global, token: u32) -> Result<u32, NoMemory>
        requires { IsMoving self.now }
        ensures { IfOk result (λ t. t ≡ type_by self.now token) }
    {
        match type_key(alloc, &self.keys, token) {
            Ok(Some(key)) => {
                let new = self.tokens.of_type(alloc, &key)?;
                Ok(new)
            }
            Ok(None) => Ok(0),
            Err(error) => Err(error),
        }
    }

    /// What a MethodSpec token becomes.
    fn instance(&self, alloc: Global, token: u32) -> Result<u32, NoMemory>
        requires { IsMoving self.now }
        ensures { IfOk result (λ t. t ≡ instance_by self.now token) }
    {
        match instance_key(alloc, &self.keys, token) {
            Ok(Some(key)) => {
                let new = self.tokens.of_instance(alloc, &key)?;
                Ok(new)
            }
            Ok(None) => Ok(0),
            Err(error) => Err(error),
        }
    }

    /// What a MethodDef or MemberRef token becomes.
    fn method(&self, alloc: Global, token: u32) -> Result<u32, NoMemory>
        requires { IsMoving self.now }
        ensures { IfOk result (λ t. t ≡ method_by self.now token) }
    {
        match method_key(alloc, &self.keys, token) {
            Ok(Some(key)) => {
                let new = self.tokens.of_method(alloc, &key)?;
                Ok(new)
            }
            Ok(None) => Ok(0),
            Err(error) => Err(error),
        }
    }

    /// What a MethodDef, MemberRef or MethodSpec token becomes.
    pub(crate) fn callee(&self, alloc: Global, token: u32) -> Result<u32, NoMemory>
        requires { IsMoving self.now }
        ensures { IfOk result (λ t. t ≡ callee_by self.now token) }
    {
        if table_of(token) == table::METHOD_SPEC {
            return self.instance(alloc, token);
        }
        self.method(alloc, token)
    }

    /// What a Field or MemberRef token becomes.
    pub(crate) fn field(&self, alloc: Global, token: u32) -> Result<u32, NoMemory>
        requires { IsMoving self.now }
        ensures { IfOk result (λ t. t ≡ field_by self.now token) }
    {
        match field_key(alloc, &self.keys, token) {
            Ok(Some(key)) => {
                let new = self.tokens.of_field(alloc, &key)?;
                Ok(new)
            }
            Ok(None) => Ok(0),
            Err(error) => Err(error),
        }
    }

    /// What the token of a row of locals becomes.
    fn locals_row(&self, alloc: Global, row: &StandAloneSigRow) -> Result<u32, NoMemory>
        requires { IsMoving self.now }
        ensures { IfOk result (λ t. t ≡ locals_row_by self.now row.now) }
    {
        match &row.signature {
            Known::Bad(_) => Ok(0),
            Known::Good(sigs) => {
                let sigs = world_sigs(alloc, &self.keys, sigs.as_slice())?;
                let new = self.tokens.of_locals(alloc, sigs.as_slice())?;
                Ok(new)
            }
        }
    }

    /// What a StandAloneSig token becomes.
    pub(crate) fn locals(&self, alloc: Global, token: u32) -> Result<u32, NoMemory>
        requires { IsMoving self.now }
        ensures { IfOk result (λ t. t ≡ locals_by self.now token) }
    {
        match locals_at(self.keys.asm.scope.rec, token) {
            None => Ok(0),
            Some(row) => {
                let new = self.locals_row(alloc, row)?;
                Ok(new)
            }
        }
    }
}

/// The row of StandAloneSig that a token names (II.22.36).
fn locals_at(rec: &AsmRec, token: u32) -> Option<&StandAloneSigRow>
    ensures { option_copied result ≡ option_and_then (slice_get rec.now.stand_alone_sig) (index_in STAND_ALONE_SIG token) }
{
    match index_in(table::STAND_ALONE_SIG, token) {
        None => None,
        Some(k) => rec.stand_alone_sig.get(k as usize),
    }
}
