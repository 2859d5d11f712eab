//! The tests of branches on two operands.

ghost use Rattle.std.specs.Prelude.{◌≡◌};
ghost use Rattle.std.specs.Option.{option_map};
ghost use Rattle.rules.specs.step_rules.Branches.{test_of};
ghost use Rattle.machine_numbers.specs.cil_compare.Tests.{test_by};

use crate::cil_compare::Test;
use il_base::opcode;

/// The test of a branch on two operands (III.3.5 to III.3.14). None for any other opcode.
#[tactic(auto, unfolding(rules::specs::step_rules::Branches::test_of))]
pub(crate) fn test_of(code: u16) -> Option<Test>
    ensures { option_map test_by result ≡ test_of code }
{
    match code {
        opcode::BEQ | opcode::BEQ_S => Some(Test::Equal),
        opcode::BGE | opcode::BGE_S => Some(Test::AtLeast),
        opcode::BGT | opcode::BGT_S => Some(Test::Greater),
        opcode::BLE | opcode::BLE_S => Some(Test::AtMost),
        opcode::BLT | opcode::BLT_S => Some(Test::Less),
        opcode::BNE_UN | opcode::BNE_UN_S => Some(Test::Unequal),
        opcode::BGE_UN | opcode::BGE_UN_S => Some(Test::AtLeastUnsigned),
        opcode::BGT_UN | opcode::BGT_UN_S => Some(Test::GreaterUnsignedNumbers),
        opcode::BLE_UN | opcode::BLE_UN_S => Some(Test::AtMostUnsigned),
        opcode::BLT_UN | opcode::BLT_UN_S => Some(Test::LessUnsigned),
        _ => None,
    }
}
