//! The accesses of the element instructions without a type.

ghost use Rattle.std.specs.Prelude.{◌≡◌};
ghost use Rattle.std.specs.Option.{option_map};
ghost use Rattle.rules.specs.step_rules.Arrays.{load_access, store_access};
ghost use Rattle.machine_words.specs.cil_stores.Accesses.{access_in};

use il_base::{element, opcode};
use machine_words::cil_stores::Access;

/// What a load takes. None for an opcode that is no load.
#[tactic(auto, unfolding(rules::specs::step_rules::Arrays::load_access))]
pub(crate) fn load_access(code: u16) -> Option<Access>
    ensures { option_map access_in result ≡ load_access code }
{
    match code {
        opcode::LDELEM_I1 => Some(Access::ByCode(element::I1)),
        opcode::LDELEM_U1 => Some(Access::ByCode(element::U1)),
        opcode::LDELEM_I2 => Some(Access::ByCode(element::I2)),
        opcode::LDELEM_U2 => Some(Access::ByCode(element::U2)),
        opcode::LDELEM_I4 => Some(Access::ByCode(element::I4)),
        opcode::LDELEM_U4 => Some(Access::ByCode(element::U4)),
        opcode::LDELEM_I8 => Some(Access::ByCode(element::I8)),
        opcode::LDELEM_I => Some(Access::ByCode(element::I)),
        opcode::LDELEM_REF => Some(Access::ByReference),
        _ => None,
    }
}

/// What a store takes. None for an opcode that is no store.
#[tactic(auto, unfolding(rules::specs::step_rules::Arrays::store_access))]
pub(crate) fn store_access(code: u16) -> Option<Access>
    ensures { option_map access_in result ≡ store_access code }
{
    match code {
        opcode::STELEM_I1 => Some(Access::ByCode(element::I1)),
        opcode::STELEM_I2 => Some(Access::ByCode(element::I2)),
        opcode::STELEM_I4 => Some(Access::ByCode(element::I4)),
        opcode::STELEM_I8 => Some(Access::ByCode(element::I8)),
        opcode::STELEM_I => Some(Access::ByCode(element::I)),
        opcode::STELEM_REF => Some(Access::ByReference),
        _ => None,
    }
}
