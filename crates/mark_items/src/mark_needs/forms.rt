//! The type that an instruction makes or shows, by its form.

ghost use Rattle.std.specs.Prelude.{◌≡◌};
ghost use Rattle.mark_items.specs.mark_needs.Forms.{shows_of};

use il_base::Form;

/// The type that the token of an instruction shows.
#[derive(Clone, Copy, Debug, PartialEq, Eq)]
pub enum Shows {
    /// The owner of a method, which `newobj` makes.
    Owner,
    /// The type that the token names.
    Operand,
    /// The type that the token names, where it names a type.
    Handle,
    /// The type that the token of `constrained.` names.
    Constrained,
    Nothing,
}

/// The type that the token of an instruction of this form shows.
#[tactic(auto, unfolding(crate::specs::mark_needs::Forms::shows_of))]
pub fn shows_of(form: Form) -> Shows
    ensures { result ≡ shows_of form }
{
    match form {
        Form::Nop => Shows::Nothing,
        Form::LdArg => Shows::Nothing,
        Form::LdArgA => Shows::Nothing,
        Form::StArg => Shows::Nothing,
        Form::LdLoc => Shows::Nothing,
        Form::LdLocA => Shows::Nothing,
        Form::StLoc => Shows::Nothing,
        Form::LdNull => Shows::Nothing,
        Form::LdI4 => Shows::Nothing,
        Form::LdI8 => Shows::Nothing,
        Form::LdStr => Shows::Nothing,
        Form::Dup => Shows::Nothing,
        Form::Pop => Shows::Nothing,
        Form::Br => Shows::Nothing,
        Form::BrIf => Shows::Nothing,
        Form::Switch => Shows::Nothing,
        Form::Leave => Shows::Nothing,
        Form::EndFinally => Shows::Nothing,
        Form::Binary => Shows::Nothing,
        Form::Unary => Shows::Nothing,
        Form::Convert => Shows::Nothing,
        Form::Call => Shows::Nothing,
        Form::Ret => Shows::Nothing,
        Form::NewObj => Shows::Owner,
        Form::Throw => Shows::Nothing,
        Form::Cast => Shows::Nothing,
        Form::Box => Shows::Operand,
        Form::Unbox => Shows::Nothing,
        Form::Field => Shows::Nothing,
        Form::NewArr => Shows::Operand,
        Form::Elem => Shows::Nothing,
        Form::Indirect => Shows::Nothing,
        Form::LdToken => Shows::Handle,
        Form::Prefix => Shows::Constrained,
    }
}
