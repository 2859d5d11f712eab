//! New exceptions of the core library, and an exception that nobody catches.

ghost use Rattle.std.specs.Prelude.{◌≡◌, [], Some, None, IfOk};
ghost use Rattle.rules.specs.step_rules.Words.{object_at};
ghost use Rattle.rules.specs.step_rules.Objects.{core_type, new_exception, wrapping, threw};
ghost use Rattle.machine_words.specs.cil_words.Steps.{next_of};
ghost use Rattle.il_base.specs.declared.cil_values.end.End.TheVariants.{Threw};
ghost use Rattle.machine_words.specs.declared.cil_words.step_out.StepOut.TheVariants.{Over};

use crate::cil_objects::messages::message_of;
use crate::cil_objects::texts::bytes_of_units;
use crate::cil_objects::types::{core_type, type_of};
use crate::cil_places::with_cell;
use crate::cil_queries::Answers;
use crate::cil_stores::zero_cells;
use crate::cil_words::StepOut;
use il_base::cil_values::{Cell, End, Obj, State, Value};
use il_base::core_table::CoreName;
use il_base::world_model::TypeExpr;
use il_base::{Boxed, NoMemory, Seq, Text};
use std::alloc::Global;

/// A new exception of the core library, without message and inner exception.
#[tactic(auto, unfolding(rules::specs::step_rules::Objects::new_exception))]
pub fn new_exception<Q: Answers>(alloc: Global, q: &Q, name: CoreName) -> Result<Obj, NoMemory>
    ensures { IfOk result (λ o. o ≡ new_exception (Q.queries q.now) name) }
{
    let of = core_type(q, name);
    let cells = zero_cells(alloc, q, &of)?;
    Ok(Obj::Instance { of, cells })
}

/// A new exception of the core library with an inner one, by its number.
#[tactic(auto, unfolding(rules::specs::step_rules::Objects::wrapping))]
pub fn wrapping<Q: Answers>(
    alloc: Global,
    q: &Q,
    name: CoreName,
    inner: u32,
) -> Result<Obj, NoMemory>
    ensures { IfOk result (λ o. o ≡ wrapping (Q.queries q.now) name inner) }
{
    let of = core_type(q, name);
    let mut cells = zero_cells(alloc, q, &of)?;
    with_cell(
        alloc,
        q,
        &of,
        &mut cells,
        Cell::Inner,
        &Value::Object(inner),
    )?;
    Ok(Obj::Instance { of, cells })
}

/// The end of a run by an exception with these texts.
fn threw_texts(alloc: Global, kind: Text, message: Text) -> Result<StepOut, NoMemory>
    ensures { IfOk result (λ out. out ≡ Over (Threw kind message)) }
{
    let kind = Boxed::new(alloc, kind)?;
    let message = Boxed::new(alloc, message)?;
    Ok(StepOut::Over(End::Threw { kind, message }))
}

/// The end of a run by this exception.
fn threw_object<Q: Answers>(alloc: Global, q: &Q, st: &State, o: &Obj) -> Result<StepOut, NoMemory>
    ensures { IfOk result (λ out. next_of out st.now [] ≡ threw (Q.queries q.now) st.now (Some o.now)) }
{
    let of = type_of(alloc, q, o)?;
    let kind = q.text(alloc, &of)?;
    let units = message_of(alloc, q, st, o)?;
    let message = bytes_of_units(alloc, units.as_slice())?;
    threw_texts(alloc, kind, message)
}

/// The end of a run by an exception that nobody catches: the text of its type, and its message.
pub fn threw<Q: Answers>(alloc: Global, q: &Q, st: &State, at: u32) -> Result<StepOut, NoMemory>
    ensures { IfOk result (λ out. next_of out st.now [] ≡ threw (Q.queries q.now) st.now (object_at st.now at)) }
{
    match st.heap.get(at) {
        Some(o) => threw_object(alloc, q, st, o),
        None => threw_texts(alloc, Seq::new(alloc), Seq::new(alloc)),
    }
}
