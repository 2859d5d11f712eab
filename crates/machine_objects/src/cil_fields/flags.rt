//! Which instructions may access a field.

ghost use Rattle.std.specs.Prelude.{◌≡◌};
ghost use Rattle.rules.specs.step_rules.Fields.{is_literal, is_static, is_static_instruction, may_access};
ghost use Rattle.machine_words.specs.cil_closing.Callees.{accessed_by};

use il_base::cil_values::Instruction;
use il_base::{field_flags, has_flag, opcode};
use machine_words::cil_closing::Accessed;

/// Whether the field is static (II.23.1.5).
pub fn is_static(a: &Accessed) -> bool
    ensures { result ≡ is_static (accessed_by a.now) }
{
    has_flag(a.field.flags, field_flags::STATIC)
}

/// Whether the field is a constant, which has no place (II.16.1.2).
pub fn is_literal(a: &Accessed) -> bool
    ensures { result ≡ is_literal (accessed_by a.now) }
{
    has_flag(a.field.flags, field_flags::LITERAL)
}

fn is_static_instruction(code: u16) -> bool
    ensures { result ≡ is_static_instruction code }
{
    code == opcode::LDSFLD || code == opcode::LDSFLDA || code == opcode::STSFLD
}

/// Whether an instruction may access a field: no constant, and no instance field by `ldsfld`, `ldsflda` or `stsfld`.
pub(crate) fn may_access(i: &Instruction, a: &Accessed) -> bool
    ensures { result ≡ may_access i.now (accessed_by a.now) }
{
    let literal = is_literal(a);
    let by_type = is_static(a);
    let static_alone = is_static_instruction(i.opcode);
    !literal && (by_type || !static_alone)
}
