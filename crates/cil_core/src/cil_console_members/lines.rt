//! What Console reads: the units of the input.

ghost use Rattle.std.specs.Prelude.{◌≡◌, [], List, ℕ, IfOk};
ghost use Rattle.rules.specs.step_rules.Queries.{Queries};
ghost use Rattle.rules.specs.step_rules.CoreWords.{Gives};
ghost use Rattle.rules.specs.step_rules.CoreConsole.{line_of, line_units, read_line_form, read_unit_form};
ghost use Rattle.cil_core.specs.cil_members.Outs.{gives_by};
ghost use Rattle.cil_core.specs.cil_console_members.Lines.{line_with};

use crate::cil_members::{CoreOut, gives_int, gives_text, gives_value, stuck_member};
use il_base::cil_values::{Stack, State, Value};
use il_base::{NoMemory, Seq, Units};
use std::alloc::Global;

/// The unit that ends a line.
const LINE_FEED: u16 = 10;

/// The unit that may stand before the end of a line.
const CARRIAGE_RETURN: u16 = 13;

/// Console.Read().
#[tactic(auto, unfolding(rules::specs::step_rules::CoreConsole::read_unit_form))]
pub fn read_unit(args: &[Value], st: &mut State) -> CoreOut
    ensures { (q : Queries) (give : Gives) → gives_by result st.new [] give ≡ read_unit_form q args.now st.old give }
{
    let [] = args else {
        return stuck_member(st);
    };
    match st.input.pop() {
        None => gives_int(st, -1),
        Some(unit) => gives_int(st, i32::from(unit)),
    }
}

/// The units of a line without its end, and whether an LF ends it.
#[derive(Drop)]
struct Line {
    units: Units,
    ends: bool,
}

/// Takes a line off the input: the units up to the next LF, or all where there is none.
#[tactic(auto, using(crate::proofs::lemmas::cil_console_members::LineLemmas::taken_all, crate::proofs::lemmas::cil_console_members::LineLemmas::taken_line, crate::proofs::lemmas::cil_console_members::LineLemmas::taken_unit))]
fn line_of(alloc: Global, input: &mut Stack<u16>) -> Result<Line, NoMemory>
    ensures { IfOk result (λ line. line_of input.old ≡ line_with line input.new) }
{
    let mut units = Seq::new(alloc);
    while let Some(unit) = input.pop() {
        if unit == LINE_FEED {
            return Ok(Line { units, ends: true });
        }
        units.push(unit)?;
    }
    Ok(Line { units, ends: false })
}

/// The units of a line. A CR right before the LF isn't part of it.
fn line_units(line: Line) -> Result<Units, NoMemory>
    ensures { IfOk result (λ units. (rest : List ℕ) → units ≡ line_units (line_with line rest)) }
{
    let Line { mut units, ends } = line;
    if !ends {
        return Ok(units);
    }
    match units.pop() {
        None => {}
        Some(CARRIAGE_RETURN) => {}
        Some(last) => units.push(last)?,
    }
    Ok(units)
}

/// Console.ReadLine().
#[tactic(auto, unfolding(rules::specs::step_rules::CoreConsole::read_line_form))]
pub fn read_line(alloc: Global, args: &[Value], st: &mut State) -> Result<CoreOut, NoMemory>
    ensures { IfOk result (λ out. (q : Queries) (give : Gives) → gives_by out st.new [] give ≡ read_line_form q args.now st.old give) }
{
    let [] = args else {
        return Ok(stuck_member(st));
    };
    if st.input.len() == 0 {
        return Ok(gives_value(st, Value::Null));
    }
    let line = line_of(alloc, &mut st.input)?;
    let units = line_units(line)?;
    gives_text(alloc, units, st)
}
