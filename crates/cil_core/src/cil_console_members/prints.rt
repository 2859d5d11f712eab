//! What Console writes. Each step's text is printed by itself, as UTF-8 with LF ends of lines.

ghost use Rattle.std.specs.Prelude.{◌≡◌, ◌++◌, [], IfOk, OnOk};
ghost use Rattle.std.specs.Fmt.{signed_decimal};
ghost use Rattle.std.specs.Option.{option_map};
ghost use Rattle.rules.specs.step_rules.Queries.{Queries};
ghost use Rattle.rules.specs.step_rules.Integers.{held_number};
ghost use Rattle.rules.specs.step_rules.CoreWords.{Gives};
ghost use Rattle.rules.specs.step_rules.CoreConsole.{bytes_of_char, bytes_of_text, ended_line, line_end_form, print_form, printed_bytes};
ghost use Rattle.rules.specs.step_rules.CoreObjects.{truth_text};
ghost use Rattle.cil_core.specs.cil_members.Outs.{gives_by};

use crate::cil_members::{CoreOut, stuck_member};
use il_base::cil_values::{Printed, State, Value};
use il_base::{NoMemory, Seq, Text};
use machine_words::cil_objects::{bytes_of_units, units_of};
use machine_words::cil_stores::held_number;
use std::alloc::Global;

/// The byte that ends a line.
const LINE_FEED: u8 = 10;

/// The bytes of a string, of null none. None where the value is neither.
fn bytes_of_text(alloc: Global, st: &State, v: &Value) -> Result<Option<Text>, NoMemory>
    ensures { IfOk result (λ bytes. bytes ≡ bytes_of_text st.now v.now) }
{
    if let Value::Null = v {
        return Ok(Some(Seq::new(alloc)));
    }
    let Some(units) = units_of(st, v) else {
        return Ok(None);
    };
    let bytes = bytes_of_units(alloc, units.as_slice())?;
    Ok(Some(bytes))
}

/// The decimal digits of a number. None where the value is no number.
fn bytes_of_number(alloc: Global, v: &Value) -> Result<Option<Text>, NoMemory>
    ensures { IfOk result (λ bytes. bytes ≡ option_map signed_decimal (held_number v.now)) }
{
    let Some(n) = held_number(v) else {
        return Ok(None);
    };
    let text = n.to_string(alloc)?;
    Ok(Some(Seq::from_vec(text.into_bytes())))
}

fn truth_text(alloc: Global, n: i64) -> Result<Text, NoMemory>
    ensures { IfOk result (λ bytes. bytes ≡ truth_text n) }
{
    if n == 0 {
        Seq::from_slice(alloc, b"False")
    } else {
        Seq::from_slice(alloc, b"True")
    }
}

/// `True` or `False`. None where the value is no number.
fn bytes_of_truth(alloc: Global, v: &Value) -> Result<Option<Text>, NoMemory>
    ensures { IfOk result (λ bytes. bytes ≡ option_map truth_text (held_number v.now)) }
{
    let Some(n) = held_number(v) else {
        return Ok(None);
    };
    let bytes = truth_text(alloc, n)?;
    Ok(Some(bytes))
}

/// The bytes of a Char. A number that no Char is, is answered as want of memory: slots of Char hold none.
fn char_text(alloc: Global, n: i64) -> Result<Text, NoMemory>
    ensures { IfOk result (λ bytes. bytes ≡ bytes_of_char n) }
{
    if n < 0 || n > 0xffff {
        return Err(NoMemory);
    }
    let units = [n as u16];
    bytes_of_units(alloc, &units)
}

/// The bytes of a Char. None where the value is no number.
fn bytes_of_char(alloc: Global, v: &Value) -> Result<Option<Text>, NoMemory>
    ensures { IfOk result (λ bytes. bytes ≡ option_map bytes_of_char (held_number v.now)) }
{
    let Some(n) = held_number(v) else {
        return Ok(None);
    };
    let bytes = char_text(alloc, n)?;
    Ok(Some(bytes))
}

/// The bytes of a value that is no object, and of a string. None where the value isn't of that kind.
#[tactic(auto, unfolding(rules::specs::step_rules::CoreConsole::printed_bytes))]
fn printed_bytes(
    alloc: Global,
    kind: Printed,
    st: &State,
    v: &Value,
) -> Result<Option<Text>, NoMemory>
    ensures { IfOk result (λ bytes. bytes ≡ printed_bytes kind st.now v.now) }
{
    match kind {
        Printed::OfString => bytes_of_text(alloc, st, v),
        Printed::OfNumber => bytes_of_number(alloc, v),
        Printed::OfBool => bytes_of_truth(alloc, v),
        Printed::OfChar => bytes_of_char(alloc, v),
        Printed::OfObject => bytes_of_text(alloc, st, v),
    }
}

/// Appends the bytes of a line, or of a part of it, to those that were printed.
fn put_line(line: bool, bytes: &[u8], printed: &mut Vec<u8>) -> Result<(), NoMemory>
    ensures { OnOk result (printed.new.items ≡ printed.old.items ++ ended_line line bytes.now) }
{
    printed.extend_from_slice(bytes)?;
    if line {
        printed.push(LINE_FEED)?;
    }
    Ok(())
}

/// Console.Write, or Console.WriteLine where `line`, of a string, a number, a bool or a char, and of what an object's ToString()
/// gave.
#[tactic(auto, unfolding(rules::specs::step_rules::CoreConsole::print_form))]
pub fn print(
    alloc: Global,
    line: bool,
    kind: Printed,
    args: &[Value],
    st: &State,
    printed: &mut Vec<u8>,
) -> Result<CoreOut, NoMemory>
    requires { printed.old.items ≡ [] }
    ensures { IfOk result (λ out. (q : Queries) (give : Gives) → gives_by out st.now printed.new.items give ≡ print_form line kind q args.now st.now give) }
{
    let [v] = args else {
        return Ok(stuck_member(st));
    };
    let Some(bytes) = printed_bytes(alloc, kind, st, v)? else {
        return Ok(stuck_member(st));
    };
    put_line(line, bytes.as_slice(), printed)?;
    Ok(CoreOut::Gave(None))
}

/// Console.WriteLine().
#[tactic(auto, unfolding(rules::specs::step_rules::CoreConsole::line_end_form))]
pub fn line_end(args: &[Value], st: &State, printed: &mut Vec<u8>) -> Result<CoreOut, NoMemory>
    requires { printed.old.items ≡ [] }
    ensures { IfOk result (λ out. (q : Queries) (give : Gives) → gives_by out st.now printed.new.items give ≡ line_end_form q args.now st.now give) }
{
    let [] = args else {
        return Ok(stuck_member(st));
    };
    printed.push(LINE_FEED)?;
    Ok(CoreOut::Gave(None))
}
