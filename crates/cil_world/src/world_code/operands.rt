//! Operands with their references resolved.

ghost use Rattle.std.specs.Prelude.{◌≡◌, IfOk};
ghost use Rattle.mark_parts.specs.mark_tables.Assemblies.{recs_of, place_of, rec_of, IsAssembly};
ghost use Rattle.rules.specs.view_rules.Code.{token_use, use_by};

use crate::world_code::tokens::{field_named, handle_use, method_named, text_named, type_named};
use il_base::cil_values::Use;
use il_base::{Form, NoMemory, Operand, Seq};
use mark_parts::mark_tables::assembly::Assembly;
use std::alloc::Global;

/// What a token names as the operand of an instruction of a form.
fn token_use(alloc: Global, asm: &Assembly<'_>, form: Form, token: u32) -> Result<Use, NoMemory>
    requires { IsAssembly asm.now }
    ensures { IfOk result (λ u. u ≡ token_use (recs_of asm.now) (place_of asm.now) (rec_of asm.now) form token) }
{
    match form {
        Form::Call | Form::NewObj => {
            let named = method_named(alloc, asm, token)?;
            Ok(Use::Method(named))
        }
        Form::Field => {
            let named = field_named(alloc, asm, token)?;
            Ok(Use::Field(named))
        }
        Form::LdStr => {
            let named = text_named(alloc, asm, token)?;
            Ok(Use::Text(named))
        }
        Form::LdToken => handle_use(alloc, asm, token),
        Form::Nop
        | Form::LdArg
        | Form::LdArgA
        | Form::StArg
        | Form::LdLoc
        | Form::LdLocA
        | Form::StLoc
        | Form::LdNull
        | Form::LdI4
        | Form::LdI8
        | Form::Dup
        | Form::Pop
        | Form::Br
        | Form::BrIf
        | Form::Switch
        | Form::Leave
        | Form::EndFinally
        | Form::Binary
        | Form::Unary
        | Form::Convert
        | Form::Ret
        | Form::Throw
        | Form::Cast
        | Form::Box
        | Form::Unbox
        | Form::NewArr
        | Form::Elem
        | Form::Indirect
        | Form::Prefix => {
            let named = type_named(alloc, asm, token)?;
            Ok(Use::Typ(named))
        }
    }
}

/// An operand of an instruction of a form.
pub(crate) fn use_by(
    alloc: Global,
    asm: &Assembly<'_>,
    form: Form,
    operand: &Operand,
) -> Result<Use, NoMemory>
    requires { IsAssembly asm.now }
    ensures { IfOk result (λ u. u ≡ use_by (recs_of asm.now) (place_of asm.now) (rec_of asm.now) form operand.now) }
{
    match operand {
        Operand::None => Ok(Use::Nothing),
        Operand::Number(n) => Ok(Use::Number(*n)),
        Operand::Slot(n) => Ok(Use::Slot(*n)),
        Operand::Token(token) => token_use(alloc, asm, form, *token),
        Operand::Target(at) => Ok(Use::Target(*at)),
        Operand::Targets(targets) => {
            let targets = Seq::from_slice(alloc, targets.as_slice())?;
            Ok(Use::Targets(targets))
        }
    }
}
