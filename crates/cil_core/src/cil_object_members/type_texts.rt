//! Object.ToString().

ghost use Rattle.std.specs.Prelude.{◌≡◌, [], ◌++◌, Some, IfOk, OnOk};
ghost use Rattle.std.specs.Char.Escape.{encode_utf16};
ghost use Rattle.il_base.specs.declared.cil_values.value.Value.TheVariants.{Object};
ghost use Rattle.rules.specs.step_rules.CoreWords.{Gives};
ghost use Rattle.rules.specs.step_rules.CoreObjects.{named, type_name_form};
ghost use Rattle.rules.specs.step_rules.Objects.{type_of, units_of_bytes};
ghost use Rattle.cil_core.specs.cil_members.Outs.{gives_by};

use crate::cil_members::{CoreOut, gives_text, stuck_member};
use il_base::cil_values::{Obj, State, Value};
use il_base::{NoMemory, Seq, Units};
use machine_words::cil_objects::type_of;
use machine_words::cil_queries::Answers;
use std::alloc::Global;
use std::str::from_utf8;

/// Puts the one or two units of a character at the end.
fn push_char(units: &mut Units, c: char) -> Result<(), NoMemory>
    ensures { OnOk result (units.new ≡ units.old ++ encode_utf16 c) }
{
    let code = c as u32;
    if code < 0x1_0000 {
        units.push(code as u16)?;
        return Ok(());
    }
    let over = code - 0x1_0000;
    units.push((0xd800 + over / 0x400) as u16)?;
    units.push((0xdc00 + over % 0x400) as u16)?;
    Ok(())
}

/// The UTF-16 units of a text.
#[tactic(auto, unfolding(rules::specs::step_rules::Objects::units_of_bytes))]
fn units_of_text(alloc: Global, text: &str) -> Result<Units, NoMemory>
    ensures { IfOk result (λ units. units ≡ units_of_bytes text.now) }
{
    let mut units = Seq::new(alloc);
    for c in text.chars() {
        push_char(&mut units, c)?;
    }
    Ok(units)
}

/// The UTF-16 units of a text in UTF-8. Bytes that are no UTF-8 are answered as want of memory: no type's text has them.
pub(crate) fn units_of_bytes(alloc: Global, bytes: &[u8]) -> Result<Units, NoMemory>
    ensures { IfOk result (λ units. units ≡ units_of_bytes bytes.now) }
{
    match from_utf8(bytes) {
        Err(_) => Err(NoMemory),
        Ok(text) => units_of_text(alloc, text),
    }
}

/// The text of an object's type.
fn type_units<Q: Answers>(alloc: Global, q: &Q, o: &Obj) -> Result<Units, NoMemory>
    ensures { IfOk result (λ units. units ≡ units_of_bytes ((Q.queries q.now).text (type_of (Q.queries q.now) o.now))) }
{
    let ty = type_of(alloc, q, o)?;
    let text = q.text(alloc, &ty)?;
    units_of_bytes(alloc, text.as_slice())
}

fn object_text<Q: Answers>(
    alloc: Global,
    q: &Q,
    at: u32,
    st: &mut State,
) -> Result<CoreOut, NoMemory>
    ensures { IfOk result (λ out. (give : Gives) → gives_by out st.new [] give ≡ named (Q.queries q.now) st.old give (Object at)) }
{
    let Some(o) = st.heap.get(at) else {
        return Ok(stuck_member(st));
    };
    let units = type_units(alloc, q, o)?;
    gives_text(alloc, units, st)
}

/// Object.ToString(): the text of the object's type.
#[tactic(auto, unfolding(rules::specs::step_rules::CoreObjects::type_name_form))]
pub fn type_name<Q: Answers>(
    alloc: Global,
    q: &Q,
    args: &[Value],
    st: &mut State,
) -> Result<CoreOut, NoMemory>
    ensures { IfOk result (λ out. (give : Gives) → gives_by out st.new [] give ≡ type_name_form (Q.queries q.now) args.now st.old give) }
{
    match args {
        [Value::Object(at)] => object_text(alloc, q, *at, st),
        _ => Ok(stuck_member(st)),
    }
}
