//! What exceptions tell.

ghost use Rattle.std.specs.Prelude.{◌≡◌, [], IfOk};
ghost use Rattle.std.specs.Option.{option_copied};
ghost use Rattle.rules.specs.step_rules.CoreWords.{Gives};
ghost use Rattle.rules.specs.step_rules.Words.{given};
ghost use Rattle.il_base.specs.declared.cil_values.state.State.{State};
ghost use Rattle.rules.specs.step_rules.CoreObjects.{get_inner_form, get_message_form, message_in, told_message};
ghost use Rattle.rules.specs.step_rules.Objects.{default_message, type_of};
ghost use Rattle.il_base.specs.declared.cil_values.value.Value.TheVariants.{Object};
ghost use Rattle.cil_core.specs.cil_members.Outs.{gives_by};
ghost use Rattle.cil_core.specs.cil_exceptions.Messages.{told_next};

use crate::cil_exceptions::cells::cell_at;
use crate::cil_members::{CoreOut, gives_text, gives_value, stuck_member};
use il_base::cil_values::{Cell, Obj, State, Value};
use il_base::{NoMemory, Units};
use machine_words::cil_objects::{default_message, type_of};
use machine_words::cil_places::cell_in;
use machine_words::cil_queries::Answers;
use std::alloc::Global;

/// What the cell of a message says.
pub(crate) enum Told {
    /// The stored object.
    Stored(u32),
    /// A new text.
    New(Units),
    Stuck,
}

fn default_units<Q: Answers>(alloc: Global, q: &Q, o: &Obj) -> Result<Units, NoMemory>
    ensures { IfOk result (λ units. units ≡ default_message (Q.queries q.now) (type_of (Q.queries q.now) o.now)) }
{
    let ty = type_of(alloc, q, o)?;
    default_message(alloc, q, &ty)
}

/// What the cell of a message says, by the value there.
fn told_by<Q: Answers>(alloc: Global, q: &Q, o: &Obj, v: Option<&Value>) -> Result<Told, NoMemory>
    ensures { IfOk result (λ told. (s : State) → (give : Gives) → given (option_copied v.entry) s (told_message (Q.queries q.now) o.now s give) ≡ told_next told s give) }
{
    match v {
        None => Ok(Told::Stuck),
        Some(Value::Object(at)) => Ok(Told::Stored(*at)),
        Some(Value::Null) => {
            let units = default_units(alloc, q, o)?;
            Ok(Told::New(units))
        }
        Some(Value::I4(_)) => Ok(Told::Stuck),
        Some(Value::I8(_)) => Ok(Told::Stuck),
        Some(Value::Native(_)) => Ok(Told::Stuck),
        Some(Value::Pointer(_)) => Ok(Told::Stuck),
        Some(Value::Struct(_, _)) => Ok(Told::Stuck),
        Some(Value::Handle(_)) => Ok(Told::Stuck),
        Some(Value::FieldHandle(_)) => Ok(Told::Stuck),
    }
}

/// What the object with a number tells as an exception.
fn told_at<Q: Answers>(alloc: Global, q: &Q, st: &State, at: u32) -> Result<Told, NoMemory>
    ensures { IfOk result (λ told. (give : Gives) → message_in (Q.queries q.now) st.now give (Object at) ≡ told_next told st.now give) }
{
    let Some(o) = st.heap.get(at) else {
        return Ok(Told::Stuck);
    };
    let v = cell_in(alloc, q, Cell::Message, o)?;
    told_by(alloc, q, o, v)
}

/// The member gives what an exception tells.
fn gives_told(alloc: Global, told: Told, st: &mut State) -> Result<CoreOut, NoMemory>
    ensures { IfOk result (λ out. (give : Gives) → gives_by out st.new [] give ≡ told_next told st.old give) }
{
    match told {
        Told::Stored(at) => Ok(gives_value(st, Value::Object(at))),
        Told::New(units) => gives_text(alloc, units, st),
        Told::Stuck => Ok(stuck_member(st)),
    }
}

fn message_at<Q: Answers>(
    alloc: Global,
    q: &Q,
    at: u32,
    st: &mut State,
) -> Result<CoreOut, NoMemory>
    ensures { IfOk result (λ out. (give : Gives) → gives_by out st.new [] give ≡ message_in (Q.queries q.now) st.old give (Object at)) }
{
    let told = told_at(alloc, q, st, at)?;
    gives_told(alloc, told, st)
}

/// Exception.get_Message(): the stored object, or a new text where none is stored.
#[tactic(auto, unfolding(rules::specs::step_rules::CoreObjects::get_message_form))]
pub fn get_message<Q: Answers>(
    alloc: Global,
    q: &Q,
    args: &[Value],
    st: &mut State,
) -> Result<CoreOut, NoMemory>
    ensures { IfOk result (λ out. (give : Gives) → gives_by out st.new [] give ≡ get_message_form (Q.queries q.now) args.now st.old give) }
{
    let [this] = args else {
        return Ok(stuck_member(st));
    };
    match this {
        Value::Object(at) => message_at(alloc, q, *at, st),
        _ => Ok(stuck_member(st)),
    }
}

/// Exception.get_InnerException().
#[tactic(auto, unfolding(rules::specs::step_rules::CoreObjects::get_inner_form))]
pub fn get_inner<Q: Answers>(
    alloc: Global,
    q: &Q,
    args: &[Value],
    st: &State,
) -> Result<CoreOut, NoMemory>
    ensures { IfOk result (λ out. (give : Gives) → gives_by out st.now [] give ≡ get_inner_form (Q.queries q.now) args.now st.now give) }
{
    let [this] = args else {
        return Ok(stuck_member(st));
    };
    match cell_at(alloc, q, st, Cell::Inner, this)? {
        None => Ok(stuck_member(st)),
        Some(v) => Ok(gives_value(st, v)),
    }
}
