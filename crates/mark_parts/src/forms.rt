//! The kind of item that the token of an instruction names, by the instruction's form.

ghost use Rattle.std.specs.Prelude.{◌≡◌};
ghost use Rattle.mark_parts.specs.Forms.{names_of};

use il_base::Form;

/// The kinds of items that a token of an operand can name.
#[derive(Clone, Copy, Debug, PartialEq, Eq)]
pub enum Names {
    Method,
    Field,
    /// A type, a field or a method.
    Any,
    Text,
    Type,
}

/// The kind of item that the token of an instruction of this form names, where it has one.
#[tactic(auto, unfolding(crate::specs::Forms::names_of))]
pub fn names_of(form: Form) -> Names
    ensures { result ≡ names_of form }
{
    match form {
        Form::Call => Names::Method,
        Form::NewObj => Names::Method,
        Form::Field => Names::Field,
        Form::LdToken => Names::Any,
        Form::LdStr => Names::Text,
        Form::Nop => Names::Type,
        Form::LdArg => Names::Type,
        Form::LdArgA => Names::Type,
        Form::StArg => Names::Type,
        Form::LdLoc => Names::Type,
        Form::LdLocA => Names::Type,
        Form::StLoc => Names::Type,
        Form::LdNull => Names::Type,
        Form::LdI4 => Names::Type,
        Form::LdI8 => Names::Type,
        Form::Dup => Names::Type,
        Form::Pop => Names::Type,
        Form::Br => Names::Type,
        Form::BrIf => Names::Type,
        Form::Switch => Names::Type,
        Form::Leave => Names::Type,
        Form::EndFinally => Names::Type,
        Form::Binary => Names::Type,
        Form::Unary => Names::Type,
        Form::Convert => Names::Type,
        Form::Ret => Names::Type,
        Form::Throw => Names::Type,
        Form::Cast => Names::Type,
        Form::Box => Names::Type,
        Form::Unbox => Names::Type,
        Form::NewArr => Names::Type,
        Form::Elem => Names::Type,
        Form::Indirect => Names::Type,
        Form::Prefix => Names::Type,
    }
}
