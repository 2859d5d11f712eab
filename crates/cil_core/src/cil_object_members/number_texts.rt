//! Texts of numbers.

ghost use Rattle.std.specs.Prelude.{◌≡◌, [], ◌∷◌, IfOk};
ghost use Rattle.std.specs.Fmt.{decimal, signed_decimal};
ghost use Rattle.std.specs.Int.{w32, cast_unsigned};
ghost use Rattle.rules.specs.step_rules.Queries.{Queries};
ghost use Rattle.rules.specs.step_rules.CoreWords.{Gives};
ghost use Rattle.rules.specs.step_rules.CoreObjects.{number_text_form, text_of_number, truth_text, unsigned_text};
ghost use Rattle.cil_core.specs.cil_members.Outs.{gives_by};

use crate::cil_members::{CoreOut, gives_text, stuck_member};
use il_base::cil_values::{State, Value};
use il_base::{NoMemory, Seq, Units, element};
use machine_words::cil_stores::held_number;
use std::alloc::Global;

/// The UTF-16 units of an ASCII text.
fn units_of_ascii(alloc: Global, bytes: &[u8]) -> Result<Units, NoMemory>
    ensures { IfOk result (λ units. units ≡ bytes.now) }
{
    let mut units = Seq::new(alloc);
    for b in bytes {
        units.push(u16::from(*b))?;
    }
    Ok(units)
}

fn signed_text(alloc: Global, n: i64) -> Result<Units, NoMemory>
    ensures { IfOk result (λ units. units ≡ signed_decimal n) }
{
    let text = n.to_string(alloc)?;
    units_of_ascii(alloc, text.as_bytes())
}

fn natural_text(alloc: Global, n: u64) -> Result<Units, NoMemory>
    ensures { IfOk result (λ units. units ≡ decimal n) }
{
    let text = n.to_string(alloc)?;
    units_of_ascii(alloc, text.as_bytes())
}

fn truth_text(alloc: Global, n: i64) -> Result<Units, NoMemory>
    ensures { IfOk result (λ units. units ≡ truth_text n) }
{
    if n == 0 {
        units_of_ascii(alloc, b"False")
    } else {
        units_of_ascii(alloc, b"True")
    }
}

/// The bits of a 32-bit number as an unsigned one.
fn bits_of(n: i64) -> u64
    ensures { result ≡ cast_unsigned w32 n }
{
    if n < 0 {
        0x1_0000_0000u64.saturating_sub(n.unsigned_abs())
    } else {
        n as u64
    }
}

/// Decimal digits of an integer by its element type (II.23.1.16).
fn integer_text(alloc: Global, code: u8, n: i64) -> Result<Units, NoMemory>
    ensures { IfOk result (λ units. units ≡ unsigned_text code n) }
{
    match code {
        element::U4 => natural_text(alloc, bits_of(n)),
        element::U8 => natural_text(alloc, n.cast_unsigned()),
        _ => signed_text(alloc, n),
    }
}

/// The one unit of a Char. A number that no Char is, is answered as want of memory: cells of Char hold none.
fn char_text(alloc: Global, n: i64) -> Result<Units, NoMemory>
    ensures { IfOk result (λ units. units ≡ cast_unsigned w32 n ∷ []) }
{
    let bits = bits_of(n);
    if bits > 0xffff {
        return Err(NoMemory);
    }
    let mut units = Seq::new(alloc);
    units.push(bits as u16)?;
    Ok(units)
}

#[tactic(auto, unfolding(rules::specs::step_rules::CoreObjects::text_of_number))]
fn text_of_number(alloc: Global, code: u8, n: i64) -> Result<Units, NoMemory>
    ensures { IfOk result (λ units. units ≡ text_of_number code n) }
{
    match code {
        element::BOOLEAN => truth_text(alloc, n),
        element::CHAR => char_text(alloc, n),
        _ => integer_text(alloc, code, n),
    }
}

/// ToString() of Boolean, Char or an integer, by its element type (II.23.1.16): `True` or `False`, the character, or decimal
/// digits.
#[tactic(auto, unfolding(rules::specs::step_rules::CoreObjects::number_text_form))]
pub fn number_text(
    alloc: Global,
    code: u8,
    args: &[Value],
    st: &mut State,
) -> Result<CoreOut, NoMemory>
    ensures { IfOk result (λ out. (q : Queries) (give : Gives) → gives_by out st.new [] give ≡ number_text_form code q args.now st.old give) }
{
    let [v] = args else {
        return Ok(stuck_member(st));
    };
    let Some(n) = held_number(v) else {
        return Ok(stuck_member(st));
    };
    let units = text_of_number(alloc, code, n)?;
    gives_text(alloc, units, st)
}
