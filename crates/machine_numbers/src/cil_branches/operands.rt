//! What an operand is.

ghost use Rattle.std.specs.Prelude.{◌≡◌};
ghost use Rattle.std.specs.Option.{option_copied};
ghost use Rattle.machine_numbers.specs.cil_branches.Operands.{target_in, targets_in};

use il_base::Seq;
use il_base::cil_values::Use;

/// The IL offset that a branch goes to. None for any other operand.
pub(crate) fn target_in(operand: &Use) -> Option<u32>
    ensures { result ≡ target_in operand.now }
{
    match operand {
        Use::Target(to) => Some(*to),
        _ => None,
    }
}

/// The IL offsets of a `switch`. None for any other operand.
pub(crate) fn targets_in(operand: &Use) -> Option<&Seq<u32>>
    ensures { option_copied result ≡ targets_in operand.now }
{
    match operand {
        Use::Targets(tos) => Some(tos),
        _ => None,
    }
}
