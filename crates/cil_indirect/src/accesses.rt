//! Accesses by opcode.

ghost use Rattle.std.specs.Prelude.{◌≡◌};
ghost use Rattle.std.specs.Option.{option_map};
ghost use Rattle.rules.specs.step_rules.Indirect.{load_access, store_access};
ghost use Rattle.machine_words.specs.cil_stores.Accesses.{access_in};

use il_base::{element, opcode};
use machine_words::cil_stores::Access;

/// The access of a load without an operand (III.3.42). None for any other opcode.
#[tactic(auto, unfolding(rules::specs::step_rules::Indirect::load_access))]
pub(crate) fn load_access(code: u16) -> Option<Access>
    ensures { option_map access_in result ≡ load_access code }
{
    match code {
        opcode::LDIND_I1 => Some(Access::ByCode(element::I1)),
        opcode::LDIND_U1 => Some(Access::ByCode(element::U1)),
        opcode::LDIND_I2 => Some(Access::ByCode(element::I2)),
        opcode::LDIND_U2 => Some(Access::ByCode(element::U2)),
        opcode::LDIND_I4 => Some(Access::ByCode(element::I4)),
        opcode::LDIND_U4 => Some(Access::ByCode(element::U4)),
        opcode::LDIND_I8 => Some(Access::ByCode(element::I8)),
        opcode::LDIND_I => Some(Access::ByCode(element::I)),
        opcode::LDIND_REF => Some(Access::ByReference),
        _ => None,
    }
}

/// The access of a store without an operand (III.3.62). None for any other opcode.
#[tactic(auto, unfolding(rules::specs::step_rules::Indirect::store_access))]
pub(crate) fn store_access(code: u16) -> Option<Access>
    ensures { option_map access_in result ≡ store_access code }
{
    match code {
        opcode::STIND_I1 => Some(Access::ByCode(element::I1)),
        opcode::STIND_I2 => Some(Access::ByCode(element::I2)),
        opcode::STIND_I4 => Some(Access::ByCode(element::I4)),
        opcode::STIND_I8 => Some(Access::ByCode(element::I8)),
        opcode::STIND_I => Some(Access::ByCode(element::I)),
        opcode::STIND_REF => Some(Access::ByReference),
        _ => None,
    }
}
