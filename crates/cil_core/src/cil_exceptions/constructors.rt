//! Constructors of exceptions.

ghost use Rattle.std.specs.Prelude.{◌≡◌, [], IfOk};
ghost use Rattle.rules.specs.step_rules.CoreWords.{Gives};
ghost use Rattle.rules.specs.step_rules.CoreObjects.{exception_inner_form, exception_parameter_form, exception_text_form, stored_text};
ghost use Rattle.rules.specs.step_rules.Objects.{made_text};
ghost use Rattle.cil_core.specs.cil_members.Outs.{gives_by};

use crate::cil_exceptions::cells::put_cell;
use crate::cil_members::{CoreOut, stuck_member, units_or_empty};
use il_base::cil_values::{Cell, End, State, Value};
use il_base::core_table::CoreName;
use il_base::{NoMemory, Units};
use machine_words::cil_objects::{made_text, parameter_message};
use machine_words::cil_queries::Answers;
use machine_words::cil_words::StepOut;
use std::alloc::Global;

/// .ctor(string): stores the object of the message.
#[tactic(auto, unfolding(rules::specs::step_rules::CoreObjects::exception_text_form))]
pub fn exception_text<Q: Answers>(
    alloc: Global,
    q: &Q,
    args: &[Value],
    st: &mut State,
) -> Result<CoreOut, NoMemory>
    ensures { IfOk result (λ out. (give : Gives) → gives_by out st.new [] give ≡ exception_text_form (Q.queries q.now) args.now st.old give) }
{
    let [this, v] = args else {
        return Ok(stuck_member(st));
    };
    if put_cell(alloc, q, Cell::Message, v, this, st)? {
        Ok(CoreOut::Gave(None))
    } else {
        Ok(stuck_member(st))
    }
}

/// .ctor(string, Exception): stores the object of the message, and the inner exception.
#[tactic(auto, unfolding(rules::specs::step_rules::CoreObjects::exception_inner_form))]
pub fn exception_inner<Q: Answers>(
    alloc: Global,
    q: &Q,
    args: &[Value],
    st: &mut State,
) -> Result<CoreOut, NoMemory>
    ensures { IfOk result (λ out. (give : Gives) → gives_by out st.new [] give ≡ exception_inner_form (Q.queries q.now) args.now st.old give) }
{
    let [this, v, w] = args else {
        return Ok(stuck_member(st));
    };
    if !put_cell(alloc, q, Cell::Message, v, this, st)? {
        return Ok(stuck_member(st));
    }
    if put_cell(alloc, q, Cell::Inner, w, this, st)? {
        Ok(CoreOut::Gave(None))
    } else {
        Ok(stuck_member(st))
    }
}

/// Stores an object as the message.
fn store_message<Q: Answers>(
    alloc: Global,
    q: &Q,
    at: u32,
    this: &Value,
    st: &mut State,
) -> Result<CoreOut, NoMemory>
    ensures { IfOk result (λ out. (give : Gives) → gives_by out st.new [] give ≡ stored_text (Q.queries q.now) this.now give at st.old) }
{
    let message = Value::Object(at);
    let done = put_cell(alloc, q, Cell::Message, &message, this, st);
    drop(message);
    if done? {
        Ok(CoreOut::Gave(None))
    } else {
        Ok(stuck_member(st))
    }
}

/// Stores a new string as the message. One that is too long ends the run.
fn store_text<Q: Answers>(
    alloc: Global,
    q: &Q,
    units: Units,
    this: &Value,
    st: &mut State,
) -> Result<CoreOut, NoMemory>
    ensures { IfOk result (λ out. (give : Gives) → gives_by out st.new [] give ≡ made_text units st.old (stored_text (Q.queries q.now) this.now give)) }
{
    let method = st.top.method.method;
    let offset = st.top.at;
    match made_text(alloc, st, units)? {
        None => {
            let over = End::Stopped { method, offset };
            Ok(CoreOut::Stepped(StepOut::Over(over)))
        }
        Some(at) => store_message(alloc, q, at, this, st),
    }
}

/// .ctor(string) of ArgumentNullException and ArgumentOutOfRangeException: the message names the parameter; null reads as the
/// empty name.
#[tactic(auto, unfolding(rules::specs::step_rules::CoreObjects::exception_parameter_form))]
pub fn exception_parameter<Q: Answers>(
    alloc: Global,
    q: &Q,
    name: CoreName,
    args: &[Value],
    st: &mut State,
) -> Result<CoreOut, NoMemory>
    ensures { IfOk result (λ out. (give : Gives) → gives_by out st.new [] give ≡ exception_parameter_form name (Q.queries q.now) args.now st.old give) }
{
    let [this, v] = args else {
        return Ok(stuck_member(st));
    };
    let Some(parameter) = units_or_empty(st, v) else {
        return Ok(stuck_member(st));
    };
    let units = parameter_message(alloc, name, parameter)?;
    store_text(alloc, q, units, this, st)
}
