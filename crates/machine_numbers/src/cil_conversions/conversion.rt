//! Which conversion an opcode is (III.3.27 to III.3.29).

ghost use Rattle.std.specs.Prelude.{◌≡◌};
ghost use Rattle.std.specs.Option.{option_map};
ghost use Rattle.rules.specs.step_rules.Numbers.{conversion, cutting, checking};
ghost use Rattle.machine_numbers.specs.cil_conversions.Conversions.{checking_signed, checking_unsigned, conversion_by};

use il_base::{element, opcode};

/// A conversion.
#[derive(Clone, Copy)]
pub(crate) struct Conversion {
    /// The integer type, by its element type.
    pub to: u8,
    /// Whether the operand counts as unsigned.
    pub unsigned: bool,
    /// Whether a number that doesn't fit raises.
    pub checked: bool,
}

fn cutting(to: u8, unsigned: bool) -> Option<Conversion>
    ensures { option_map conversion_by result ≡ cutting to unsigned }
{
    Some(Conversion {
        to,
        unsigned,
        checked: false,
    })
}

fn checking(to: u8, unsigned: bool) -> Option<Conversion>
    ensures { option_map conversion_by result ≡ checking to unsigned }
{
    Some(Conversion {
        to,
        unsigned,
        checked: true,
    })
}

fn checking_unsigned(code: u16) -> Option<Conversion>
    ensures { option_map conversion_by result ≡ checking_unsigned code }
{
    match code {
        opcode::CONV_OVF_I1_UN => checking(element::I1, true),
        opcode::CONV_OVF_I2_UN => checking(element::I2, true),
        opcode::CONV_OVF_I4_UN => checking(element::I4, true),
        opcode::CONV_OVF_I8_UN => checking(element::I8, true),
        opcode::CONV_OVF_I_UN => checking(element::I, true),
        opcode::CONV_OVF_U1_UN => checking(element::U1, true),
        opcode::CONV_OVF_U2_UN => checking(element::U2, true),
        opcode::CONV_OVF_U4_UN => checking(element::U4, true),
        opcode::CONV_OVF_U8_UN => checking(element::U8, true),
        opcode::CONV_OVF_U_UN => checking(element::U, true),
        _ => None,
    }
}

fn checking_signed(code: u16) -> Option<Conversion>
    ensures { option_map conversion_by result ≡ checking_signed code }
{
    match code {
        opcode::CONV_OVF_I1 => checking(element::I1, false),
        opcode::CONV_OVF_I2 => checking(element::I2, false),
        opcode::CONV_OVF_I4 => checking(element::I4, false),
        opcode::CONV_OVF_I8 => checking(element::I8, false),
        opcode::CONV_OVF_I => checking(element::I, false),
        opcode::CONV_OVF_U1 => checking(element::U1, false),
        opcode::CONV_OVF_U2 => checking(element::U2, false),
        opcode::CONV_OVF_U4 => checking(element::U4, false),
        opcode::CONV_OVF_U8 => checking(element::U8, false),
        opcode::CONV_OVF_U => checking(element::U, false),
        _ => checking_unsigned(code),
    }
}

/// The conversion that an opcode is. None for any other opcode. `conv.u8` and `conv.u` extend an int32 by zeros, the other ones
/// that extend by its sign.
#[tactic(auto, unfolding(rules::specs::step_rules::Numbers::conversion))]
pub(crate) fn conversion_of(code: u16) -> Option<Conversion>
    ensures { option_map conversion_by result ≡ conversion code }
{
    match code {
        opcode::CONV_I1 => cutting(element::I1, false),
        opcode::CONV_I2 => cutting(element::I2, false),
        opcode::CONV_I4 => cutting(element::I4, false),
        opcode::CONV_I8 => cutting(element::I8, false),
        opcode::CONV_I => cutting(element::I, false),
        opcode::CONV_U1 => cutting(element::U1, false),
        opcode::CONV_U2 => cutting(element::U2, false),
        opcode::CONV_U4 => cutting(element::U4, false),
        opcode::CONV_U8 => cutting(element::U8, true),
        opcode::CONV_U => cutting(element::U, true),
        _ => checking_signed(code),
    }
}
