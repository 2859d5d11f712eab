//! What the operands of instructions name.

ghost use Rattle.std.specs.Prelude.{◌≡◌, slice_get, IfOk};
ghost use Rattle.std.specs.List.{list_any};
ghost use Rattle.std.specs.Option.{is_some, option_and_then, option_copied};
ghost use Rattle.il_base.specs.declared.table.TheConstants.{MEMBER_REF};
ghost use Rattle.il_base.specs.world_model.Tokens.{index_in};
ghost use Rattle.rules.specs.link_rules.Signatures.{token_type};
ghost use Rattle.rules.specs.mark_rules.Naming.{method_named, field_named};
ghost use Rattle.rules.specs.mark_rules.Bodies.{is_field_row, is_field_token, is_method_token, is_text_of};
ghost use Rattle.rules.specs.flow_rules.Counts.{good_one, called_token, called_operand, is_good_handle, is_good_token, is_good_operand};
ghost use Rattle.value_flow.specs.body_graph.Methods.{IsHere};

use crate::body_graph::methods::Method;
use crate::body_graph::signatures::called_in;
use base_laws::world_laws::laws::tokens_named;
use il_base::world_model::{
    AsmRec, FieldUse, Known, MemberRefRow, MemberSig, MethodUse, TypeExpr, index_in, table_of,
};
use il_base::{AsmId, Form, NoMemory, Operand, table};
use rules::flow_rules::Called;

/// The method that a MethodDef, MemberRef or MethodSpec token names, if any.
pub fn method_named<'w>(m: &Method<'w>, token: u32) -> Option<&'w MethodUse>
    requires { IsHere m.now }
    ensures { option_copied result ≡ good_one (method_named m.now.world.now.recs m.now.asm m.now.rec.now token) }
{
    tokens_named();
    match m.world.method_at(AsmId(m.asm), token) {
        None => None,
        Some(Known::Good(named)) => Some(named),
        Some(Known::Bad(_)) => None,
    }
}

/// The field that a Field or MemberRef token names, if any.
pub fn field_named<'w>(m: &Method<'w>, token: u32) -> Option<&'w FieldUse>
    requires { IsHere m.now }
    ensures { option_copied result ≡ good_one (field_named m.now.world.now.recs m.now.asm m.now.rec.now token) }
{
    tokens_named();
    match m.world.field_at(AsmId(m.asm), token) {
        None => None,
        Some(Known::Good(named)) => Some(named),
        Some(Known::Bad(_)) => None,
    }
}

/// The type that a TypeDef, TypeRef or TypeSpec token names, if any.
pub fn type_named<'w>(m: &Method<'w>, token: u32) -> Option<&'w TypeExpr>
    requires { IsHere m.now }
    ensures { option_copied result ≡ good_one (token_type m.now.world.now.recs m.now.asm m.now.rec.now token) }
{
    tokens_named();
    match m.world.type_at(AsmId(m.asm), token) {
        None => None,
        Some(Known::Good(named)) => Some(named),
        Some(Known::Bad(_)) => None,
    }
}

fn is_field_row(row: Option<&MemberRefRow>) -> bool
    ensures { result ≡ is_field_row (option_copied row.entry) }
{
    match row {
        None => false,
        Some(row) => match &row.signature {
            Known::Good(MemberSig::Field(_)) => true,
            Known::Good(MemberSig::Method(_)) => false,
            Known::Bad(_) => false,
        },
    }
}

fn member_row(rec: &AsmRec, token: u32) -> Option<&MemberRefRow>
    ensures { option_copied result ≡ option_and_then (slice_get rec.now.member_ref) (index_in MEMBER_REF token) }
{
    match index_in(table::MEMBER_REF, token) {
        None => None,
        Some(at) => rec.member_ref.get(at as usize),
    }
}

/// Whether a token names a field and not a method.
pub fn is_field_token(rec: &AsmRec, token: u32) -> bool
    ensures { result ≡ is_field_token rec.now token }
{
    let of = table_of(token);
    of == table::FIELD || of == table::MEMBER_REF && is_field_row(member_row(rec, token))
}

/// Whether a token is of a table of methods.
pub fn is_method_token(token: u32) -> bool
    ensures { result ≡ is_method_token token }
{
    let of = table_of(token);
    of == table::METHOD_DEF || of == table::MEMBER_REF || of == table::METHOD_SPEC
}

fn is_text(rec: &AsmRec, token: u32) -> bool
    ensures { result ≡ list_any (is_text_of token) rec.now.user }
{
    rec.user.as_slice().iter().any(|t| t.token == token)
}

/// The signature of the method that a token names; None where it has no reading.
fn called_token(m: &Method<'_>, token: u32) -> Result<Option<Called>, NoMemory>
    requires { IsHere m.now }
    ensures { IfOk result (λ called. called ≡ called_token m.now.world.now.recs m.now.asm m.now.rec.now token) }
{
    match method_named(m, token) {
        None => Ok(None),
        Some(named) => called_in(m.world, named),
    }
}

/// Whether a token names a method whose signature has a reading.
fn is_good_method(m: &Method<'_>, token: u32) -> Result<bool, NoMemory>
    requires { IsHere m.now }
    ensures { IfOk result (λ good. good ≡ is_some (called_token m.now.world.now.recs m.now.asm m.now.rec.now token)) }
{
    match called_token(m, token) {
        Err(error) => Err(error),
        Ok(called) => Ok(called.is_some()),
    }
}

/// Whether a token names what `ldtoken` takes.
fn is_good_handle(m: &Method<'_>, token: u32) -> Result<bool, NoMemory>
    requires { IsHere m.now }
    ensures { IfOk result (λ good. good ≡ is_good_handle m.now.world.now.recs m.now.asm m.now.rec.now token) }
{
    if is_field_token(m.rec, token) {
        return Ok(field_named(m, token).is_some());
    }
    if is_method_token(token) {
        return is_good_method(m, token);
    }
    Ok(type_named(m, token).is_some())
}

/// Whether the token of an instruction of a form names what the form takes.
fn is_good_token(m: &Method<'_>, form: Form, token: u32) -> Result<bool, NoMemory>
    requires { IsHere m.now }
    ensures { IfOk result (λ good. good ≡ is_good_token m.now.world.now.recs m.now.asm m.now.rec.now form token) }
{
    match form {
        Form::Call => Ok(method_named(m, token).is_some()),
        Form::NewObj => Ok(method_named(m, token).is_some()),
        Form::Field => Ok(field_named(m, token).is_some()),
        Form::LdStr => Ok(is_text(m.rec, token)),
        Form::LdToken => is_good_handle(m, token),
        Form::Nop
        | Form::LdArg
        | Form::LdArgA
        | Form::StArg
        | Form::LdLoc
        | Form::LdLocA
        | Form::StLoc
        | Form::LdNull
        | Form::LdI4
        | Form::LdI8
        | Form::Dup
        | Form::Pop
        | Form::Br
        | Form::BrIf
        | Form::Switch
        | Form::Leave
        | Form::EndFinally
        | Form::Binary
        | Form::Unary
        | Form::Convert
        | Form::Ret
        | Form::Throw
        | Form::Cast
        | Form::Box
        | Form::Unbox
        | Form::NewArr
        | Form::Elem
        | Form::Indirect
        | Form::Prefix => Ok(type_named(m, token).is_some()),
    }
}

/// Whether the operand of an instruction of a form names what the form takes; one that is no token always does.
pub fn is_good_operand(m: &Method<'_>, form: Form, operand: &Operand) -> Result<bool, NoMemory>
    requires { IsHere m.now }
    ensures { IfOk result (λ good. good ≡ is_good_operand m.now.world.now.recs m.now.asm m.now.rec.now form operand.now) }
{
    match operand {
        Operand::None => Ok(true),
        Operand::Number(_) => Ok(true),
        Operand::Slot(_) => Ok(true),
        Operand::Token(token) => is_good_token(m, form, *token),
        Operand::Target(_) => Ok(true),
        Operand::Targets(_) => Ok(true),
    }
}

/// The signature of the method that a call or `newobj` names; None where it has no reading.
pub fn called_operand(m: &Method<'_>, operand: &Operand) -> Result<Option<Called>, NoMemory>
    requires { IsHere m.now }
    ensures { IfOk result (λ called. called ≡ called_operand m.now.world.now.recs m.now.asm m.now.rec.now operand.now) }
{
    match operand {
        Operand::None => Ok(None),
        Operand::Number(_) => Ok(None),
        Operand::Slot(_) => Ok(None),
        Operand::Token(token) => called_token(m, *token),
        Operand::Target(_) => Ok(None),
        Operand::Targets(_) => Ok(None),
    }
}
