//! The ways in which a call of a member goes on.

ghost use Rattle.std.specs.Prelude.{◌≡◌, ℕ, List, [], pos, IfOk};
ghost use Rattle.rules.specs.step_rules.Raising.{raise};
ghost use Rattle.rules.specs.step_rules.Words.{stuck, stopped};
ghost use Rattle.rules.specs.step_rules.CoreWords.{Gives, gives_int, gives_text, gives_truth, gives_value};
ghost use Rattle.cil_core.specs.cil_members.Outs.{gives_by};

use crate::cil_members::core_out::CoreOut;
use il_base::cil_values::{State, Value};
use il_base::core_table::CoreName;
use il_base::{NoMemory, Units};
use machine_frames::cil_raising::raise;
use machine_words::cil_objects::made_text;
use machine_words::cil_queries::Answers;
use std::alloc::Global;

/// The code breaks a rule at this call.
pub fn stuck_member(st: &State) -> CoreOut
    ensures { (bytes : List ℕ) → (give : Gives) → gives_by result st.now bytes give ≡ stuck st.now }
{
    CoreOut::Stepped(machine_words::cil_words::stuck(st))
}

/// The run ends at this call.
pub fn stopped_member(st: &State) -> CoreOut
    ensures { (bytes : List ℕ) → (give : Gives) → gives_by result st.now bytes give ≡ stopped st.now }
{
    CoreOut::Stepped(machine_words::cil_words::stopped(st))
}

/// The member gives a value.
pub fn gives_value(st: &State, v: Value) -> CoreOut
    ensures { (give : Gives) → gives_by result st.now [] give ≡ gives_value v st.now give }
{
    CoreOut::Gave(Some(v))
}

/// The member gives 1 for true, 0 for false.
pub fn gives_truth(st: &State, holds: bool) -> CoreOut
    ensures { (give : Gives) → gives_by result st.now [] give ≡ gives_truth holds st.now give }
{
    if holds {
        CoreOut::Gave(Some(Value::I4(1)))
    } else {
        CoreOut::Gave(Some(Value::I4(0)))
    }
}

/// The member gives an int32.
pub fn gives_int(st: &State, n: i32) -> CoreOut
    ensures { (give : Gives) → gives_by result st.now [] give ≡ gives_int n st.now give }
{
    CoreOut::Gave(Some(Value::I4(n)))
}

/// A length as an int32. One beyond 2147483647 is answered as want of memory.
pub fn int_of(n: usize) -> Result<i32, NoMemory>
    ensures { IfOk result (λ i. i ≡ pos n) }
{
    if n > i32::MAX as usize {
        return Err(NoMemory);
    }
    Ok(n as i32)
}

/// The call raises a new exception of the core library.
pub fn raised<Q: Answers>(
    alloc: Global,
    q: &Q,
    name: CoreName,
    st: &mut State,
) -> Result<CoreOut, NoMemory>
    ensures { IfOk result (λ out. (give : Gives) → gives_by out st.new [] give ≡ raise (Q.queries q.now) name st.old) }
{
    let out = raise(alloc, q, name, st)?;
    Ok(CoreOut::Stepped(out))
}

/// The member gives a new string. One that is too long ends the run.
pub fn gives_text(alloc: Global, units: Units, st: &mut State) -> Result<CoreOut, NoMemory>
    ensures { IfOk result (λ out. (give : Gives) → gives_by out st.new [] give ≡ gives_text units st.old give) }
{
    let over = machine_words::cil_words::stopped(st);
    match made_text(alloc, st, units)? {
        None => Ok(CoreOut::Stepped(over)),
        Some(at) => Ok(CoreOut::Gave(Some(Value::Object(at)))),
    }
}
