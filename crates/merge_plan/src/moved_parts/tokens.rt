//! The new tokens of an assembly's tokens.

ghost use Rattle.std.specs.Prelude.{◌≡◌, ℕ, nat_eq, slice_get, OnOk, if◌then◌else◌};
ghost use Rattle.std.specs.Option.{option_copied, option_and_then};
ghost use Rattle.il_base.specs.declared.table.TheConstants.{MEMBER_REF};
ghost use Rattle.il_base.specs.world_model.Tokens.{index_in};
ghost use Rattle.rules.specs.mark_rules.Bodies.{is_field_row, is_field_token, is_method_token};
ghost use Rattle.merge_plan.specs.moved_parts.Moves.{new_token, any_by, form_by};

use il_base::world_model::{AsmRec, Known, MemberRefRow, MemberSig, index_in, table_of};
use il_base::{Form, NoMemory, table};
use std::alloc::Global;
use std::collections::HashMap;

/// New tokens by old ones. A token that isn't among them becomes 0.
#[derive(Drop)]
pub struct TokenMap {
    tokens: HashMap<u32, u32>,
}

impl TokenMap {
    /// Each token becomes 0. It takes no memory.
    pub fn new(alloc: Global) -> TokenMap
        ensures { (q : ℕ) → new_token result q ≡ 0 }
    {
        TokenMap {
            tokens: HashMap::new(alloc),
        }
    }

    /// The new token of a token.
    pub fn get(&self, token: u32) -> u32
        ensures { result ≡ new_token self.now token }
    {
        match self.tokens.get(&token) {
            Some(new) => *new,
            None => 0,
        }
    }

    /// Sets the new token of a token.
    pub fn set(&mut self, token: u32, new: u32) -> Result<(), NoMemory>
        ensures { OnOk result ((q : ℕ) → new_token self.new q ≡ (if nat_eq token q then new else new_token self.old q)) }
    {
        self.tokens.insert(token, new)?;
        Ok(())
    }
}

/// The new tokens of an assembly's tokens, by the places in which these stand.
#[derive(Drop)]
pub struct NewTokens {
    /// TypeDef and TypeRef tokens of classes and value types in signatures.
    pub classes: TokenMap,
    /// TypeDef and TypeRef tokens of modifiers in signatures.
    pub modifiers: TokenMap,
    /// TypeDef, TypeRef and TypeSpec tokens in code and rows.
    pub types: TokenMap,
    /// MethodDef, MemberRef and MethodSpec tokens.
    pub callees: TokenMap,
    /// Field and MemberRef tokens.
    pub fields: TokenMap,
    /// StandAloneSig tokens.
    pub locals: TokenMap,
    /// Tokens of `ldstr`.
    pub texts: TokenMap,
}

/// The row that a MemberRef token names.
fn member_row(rec: &AsmRec, token: u32) -> Option<&MemberRefRow>
    ensures { option_copied result ≡ option_and_then (slice_get rec.now.member_ref) (index_in MEMBER_REF token) }
{
    match index_in(table::MEMBER_REF, token) {
        None => None,
        Some(at) => rec.member_ref.get(at as usize),
    }
}

/// Whether a MemberRef row has a field's signature.
fn is_field_row(row: Option<&MemberRefRow>) -> bool
    ensures { result ≡ is_field_row (option_copied row.entry) }
{
    match row {
        None => false,
        Some(row) => match &row.signature {
            Known::Good(MemberSig::Field(_)) => true,
            Known::Good(MemberSig::Method(_)) => false,
            Known::Bad(_) => false,
        },
    }
}

/// Whether a token names a field and not a method.
fn is_field_token(rec: &AsmRec, token: u32) -> bool
    ensures { result ≡ is_field_token rec.now token }
{
    let of = table_of(token);
    of == table::FIELD || (of == table::MEMBER_REF && is_field_row(member_row(rec, token)))
}

/// Whether a token is a MethodDef, MemberRef or MethodSpec token.
fn is_method_token(token: u32) -> bool
    ensures { result ≡ is_method_token token }
{
    let of = table_of(token);
    of == table::METHOD_DEF || of == table::MEMBER_REF || of == table::METHOD_SPEC
}

impl NewTokens {
    /// The new operand of `ldtoken` (III.4.17): a type, a field or a method.
    fn any(&self, rec: &AsmRec, token: u32) -> u32
        ensures { result ≡ any_by self.now rec.now token }
    {
        if is_field_token(rec, token) {
            self.fields.get(token)
        } else if is_method_token(token) {
            self.callees.get(token)
        } else {
            self.types.get(token)
        }
    }

    /// The new token of an instruction of this form.
    pub(crate) fn of_form(&self, rec: &AsmRec, form: Form, token: u32) -> u32
        ensures { result ≡ form_by self.now rec.now form token }
    {
        match form {
            Form::Call => self.callees.get(token),
            Form::NewObj => self.callees.get(token),
            Form::Field => self.fields.get(token),
            Form::LdStr => self.texts.get(token),
            Form::LdToken => self.any(rec, token),
            _ => self.types.get(token),
        }
    }
}
