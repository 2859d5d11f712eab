//! The tests of instructions that give 0 or 1.

ghost use Rattle.std.specs.Prelude.{◌≡◌};
ghost use Rattle.std.specs.Option.{option_map};
ghost use Rattle.rules.specs.step_rules.Numbers.{comparison};
ghost use Rattle.machine_numbers.specs.cil_compare.Tests.{test_by};

use crate::cil_compare::Test;
use il_base::opcode;

/// The test of an instruction that gives 0 or 1 (III.3.21 to III.3.26). None for any other opcode.
#[tactic(auto, unfolding(rules::specs::step_rules::Numbers::comparison))]
pub(crate) fn comparison(code: u16) -> Option<Test>
    ensures { option_map test_by result ≡ comparison code }
{
    match code {
        opcode::CEQ => Some(Test::Equal),
        opcode::CGT => Some(Test::Greater),
        opcode::CGT_UN => Some(Test::GreaterUnsigned),
        opcode::CLT => Some(Test::Less),
        opcode::CLT_UN => Some(Test::LessUnsigned),
        _ => None,
    }
}
