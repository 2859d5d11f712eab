//! What an operation on numbers comes to.

ghost use Rattle.std.specs.Prelude.{◌≡◌};
ghost use Rattle.machine_numbers.specs.cil_arithmetic.Answers.{or_overflow};

use il_base::core_table::CoreName;

/// What an operation on numbers comes to.
#[derive(Clone, Copy)]
pub enum Answer<T> {
    Is(T),
    /// The exception that it raises.
    Raises(CoreName),
}

/// The number, or OverflowException where it doesn't fit.
pub(crate) fn or_overflow<T>(n: Option<T>) -> Answer<T>
    ensures { result ≡ or_overflow n }
{
    match n {
        None => Answer::Raises(CoreName::OverflowException),
        Some(n) => Answer::Is(n),
    }
}
