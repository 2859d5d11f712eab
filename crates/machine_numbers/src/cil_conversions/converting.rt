//! What a conversion comes to.

ghost use Rattle.std.specs.Prelude.{◌≡◌};
ghost use Rattle.rules.specs.step_rules.Integers.{number};
ghost use Rattle.rules.specs.step_rules.Numbers.{converted};
ghost use Rattle.machine_numbers.specs.cil_arithmetic.Outcomes.{outcome_by};
ghost use Rattle.machine_numbers.specs.cil_conversions.Conversions.{conversion_by, number_by};
ghost use Rattle.machine_numbers.specs.cil_conversions.Outcomes.{convert_of};

use crate::cil_arithmetic::Outcome;
use crate::cil_conversions::conversion::{Conversion, conversion_of};
use crate::cil_conversions::wide::{Wide, operand_of};
use il_base::cil_values::Value;
use il_base::core_table::CoreName;

/// What a conversion of a number comes to.
#[tactic(auto, unfolding(rules::specs::step_rules::Numbers::converted))]
fn converted(c: Conversion, n: Wide) -> Outcome
    ensures { result ≡ outcome_by (number c.to) (converted (conversion_by c) (number_by n)) }
{
    if c.checked && !n.fits(c.to) {
        Outcome::Raises(CoreName::OverflowException)
    } else {
        Outcome::Gives(n.cut(c.to))
    }
}

/// What a conversion of a value comes to. None for what is no number, and for an opcode that is no conversion.
pub fn convert_of(code: u16, v: &Value) -> Option<Outcome>
    ensures { result ≡ convert_of code v.now }
{
    let Some(c) = conversion_of(code) else {
        return None;
    };
    match operand_of(c.unsigned, v) {
        None => None,
        Some(n) => Some(converted(c, n)),
    }
}
