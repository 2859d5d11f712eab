//! The place that an access through a pointer takes.

ghost use Rattle.std.specs.Prelude.{◌≡◌, List, IfOk};
ghost use Rattle.il_base.specs.declared.cil_values.value.Value.{Value};
ghost use Rattle.il_base.specs.declared.cil_values.path.Path.{Path};
ghost use Rattle.rules.specs.step_rules.Next.{Next};
ghost use Rattle.rules.specs.step_rules.Indirect.{pointed, through};
ghost use Rattle.machine_words.specs.cil_stores.Accesses.{access_in};
ghost use Rattle.machine_numbers.specs.cil_pointers.Reaching.{reached_by, with_stack};

use il_base::NoMemory;
use il_base::cil_values::{Path, State, Value};
use machine_numbers::cil_pointers::{Reached, ended_at, value_at};
use machine_words::cil_queries::Answers;
use machine_words::cil_stores::{Access, allows};
use std::alloc::Global;

/// What an access finds at a pointer: the frame that ended first, then the type, then the cell.
#[tactic(auto, unfolding(rules::specs::step_rules::Places::at_place))]
fn pointed<Q: Answers>(
    alloc: Global,
    q: &Q,
    a: &Access,
    p: &Path,
    st: &State,
) -> Result<Reached, NoMemory>
    ensures { IfOk result (λ x. (vs : List Value) → (f : Path → Value → Next) → pointed (Q.queries q.now) (access_in a.now) p.now (with_stack vs st.now) f ≡ reached_by (Q.queries q.now) x (with_stack vs st.now) f) }
{
    if ended_at(st, p) {
        return Ok(Reached::Gone);
    }
    if !allows(alloc, q, a, &p.of)? {
        return Ok(Reached::Refused);
    }
    let Some(v) = value_at(alloc, q, st, p)? else {
        return Ok(Reached::Gone);
    };
    let copy = p.copy(alloc)?;
    Ok(Reached::At(copy, v))
}

/// What an access finds where a value leads, which was taken off the evaluation stack.
#[tactic(auto, unfolding(rules::specs::step_rules::Indirect::through))]
pub(crate) fn through<Q: Answers>(
    alloc: Global,
    q: &Q,
    a: &Access,
    r: &Value,
    st: &State,
) -> Result<Reached, NoMemory>
    ensures { IfOk result (λ x. (vs : List Value) → (f : Path → Value → Next) → through (Q.queries q.now) (access_in a.now) r.now (with_stack vs st.now) f ≡ reached_by (Q.queries q.now) x (with_stack vs st.now) f) }
{
    match r {
        Value::Pointer(p) => pointed(alloc, q, a, p.get(), st),
        Value::Null => Ok(Reached::Null),
        Value::I4(_) => Ok(Reached::Refused),
        Value::I8(_) => Ok(Reached::Refused),
        Value::Native(_) => Ok(Reached::Refused),
        Value::Object(_) => Ok(Reached::Refused),
        Value::Struct(_, _) => Ok(Reached::Refused),
        Value::Handle(_) => Ok(Reached::Refused),
        Value::FieldHandle(_) => Ok(Reached::Refused),
    }
}
