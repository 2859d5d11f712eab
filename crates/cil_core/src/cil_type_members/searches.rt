//! Members that search the world: Type.GetType by a name.

ghost use Rattle.std.specs.Prelude.{◌≡◌, [], slice_get, IfOk};
ghost use Rattle.std.specs.Option.{option_copied};
ghost use Rattle.rules.specs.step_rules.Objects.{units_of};
ghost use Rattle.rules.specs.step_rules.Words.{given};
ghost use Rattle.rules.specs.step_rules.CoreWords.{Gives};
ghost use Rattle.rules.specs.step_rules.CoreSearches.{calling_method, find_form, find_named, gives_missing, gives_sought, sought_by, type_find_form, type_find_or_form};
ghost use Rattle.cil_core.specs.cil_members.Outs.{gives_by};

use crate::cil_members::{CoreOut, gives_value, raised, stopped_member, stuck_member};
use crate::cil_type_members::type_values::gives_type;
use il_base::NoMemory;
use il_base::cil_values::{Frame, Sought, Stack, State, Value};
use il_base::core_table::CoreName;
use machine_words::cil_objects::{bytes_of_units, units_of};
use machine_words::cil_queries::Answers;
use machine_words::cil_stores::held_number;
use std::alloc::Global;

/// The innermost of the frames that wait.
fn innermost(frames: &Stack<Frame>) -> Option<&Frame>
    ensures { option_copied result ≡ slice_get frames.now 0 }
{
    let below = frames.as_slice();
    if below.len() == 0 {
        return None;
    }
    Some(&below[below.len() - 1])
}

/// The method that calls a member, by its place in the world. A member that reflection calls has a frame of its own, and the caller's
/// is below it.
fn calling_method<Q: Answers>(q: &Q, st: &State) -> u32
    ensures { result ≡ calling_method (Q.queries q.now) st.now }
{
    let own = st.top.method.method.0;
    match q.core(own) {
        None => own,
        Some(_) => match innermost(&st.below) {
            Some(f) => f.method.method.0,
            None => own,
        },
    }
}

/// The type that a text in UTF-16 names for the method that calls.
fn sought_by<Q: Answers>(
    alloc: Global,
    q: &Q,
    units: &[u16],
    st: &State,
) -> Result<Sought, NoMemory>
    ensures { IfOk result (λ sought. sought ≡ sought_by (Q.queries q.now) st.now units.now) }
{
    let text = bytes_of_units(alloc, units)?;
    let sought = q.find(alloc, calling_method(q, st), text.as_slice())?;
    Ok(sought)
}

/// Where no type has the name, the member gives null, or raises TypeLoadException.
fn gives_missing<Q: Answers>(
    alloc: Global,
    q: &Q,
    throws: bool,
    st: &mut State,
) -> Result<CoreOut, NoMemory>
    ensures { IfOk result (λ out. (give : Gives) → gives_by out st.new [] give ≡ gives_missing (Q.queries q.now) st.old give throws) }
{
    if throws {
        raised(alloc, q, CoreName::TypeLoadException, st)
    } else {
        Ok(gives_value(st, Value::Null))
    }
}

/// The member gives the object of the type that was found. A name that isn't looked for ends the run.
fn gives_sought<Q: Answers>(
    alloc: Global,
    q: &Q,
    throws: bool,
    sought: &Sought,
    st: &mut State,
) -> Result<CoreOut, NoMemory>
    ensures { IfOk result (λ out. (give : Gives) → gives_by out st.new [] give ≡ gives_sought (Q.queries q.now) st.old give throws sought.now) }
{
    match sought {
        Sought::Found(ty) => gives_type(alloc, ty, st),
        Sought::Missing => gives_missing(alloc, q, throws, st),
        Sought::Unread => Ok(stopped_member(st)),
    }
}

/// The member gives the type that a string names.
fn find_text<Q: Answers>(
    alloc: Global,
    q: &Q,
    throws: bool,
    v: &Value,
    st: &mut State,
) -> Result<CoreOut, NoMemory>
    ensures { IfOk result (λ out. (give : Gives) → gives_by out st.new [] give ≡ given (units_of st.old v.now) st.old (λ units. gives_sought (Q.queries q.now) st.old give throws (sought_by (Q.queries q.now) st.old units))) }
{
    let Some(units) = units_of(st, v) else {
        return Ok(stuck_member(st));
    };
    let sought = sought_by(alloc, q, units.as_slice(), st)?;
    let out = gives_sought(alloc, q, throws, &sought, st);
    drop(sought);
    out
}

/// The same for an argument that may be null: ArgumentNullException is raised.
fn find_named<Q: Answers>(
    alloc: Global,
    q: &Q,
    throws: bool,
    v: &Value,
    st: &mut State,
) -> Result<CoreOut, NoMemory>
    ensures { IfOk result (λ out. (give : Gives) → gives_by out st.new [] give ≡ find_named (Q.queries q.now) st.old give throws v.now) }
{
    match v {
        Value::Null => raised(alloc, q, CoreName::ArgumentNullException, st),
        Value::Object(_) => find_text(alloc, q, throws, v, st),
        Value::I4(_) => Ok(stuck_member(st)),
        Value::I8(_) => Ok(stuck_member(st)),
        Value::Native(_) => Ok(stuck_member(st)),
        Value::Pointer(_) => Ok(stuck_member(st)),
        Value::Struct(_, _) => Ok(stuck_member(st)),
        Value::Handle(_) => Ok(stuck_member(st)),
        Value::FieldHandle(_) => Ok(stuck_member(st)),
    }
}

/// Type.GetType(string).
#[tactic(auto, unfolding(rules::specs::step_rules::CoreSearches::type_find_form))]
fn type_find<Q: Answers>(
    alloc: Global,
    q: &Q,
    args: &[Value],
    st: &mut State,
) -> Result<CoreOut, NoMemory>
    ensures { IfOk result (λ out. (give : Gives) → gives_by out st.new [] give ≡ type_find_form (Q.queries q.now) args.now st.old give) }
{
    let [v] = args else {
        return Ok(stuck_member(st));
    };
    find_named(alloc, q, false, v, st)
}

/// Type.GetType(string, bool): with true it raises where no type has the name.
#[tactic(auto, unfolding(rules::specs::step_rules::CoreSearches::type_find_or_form))]
fn type_find_or<Q: Answers>(
    alloc: Global,
    q: &Q,
    args: &[Value],
    st: &mut State,
) -> Result<CoreOut, NoMemory>
    ensures { IfOk result (λ out. (give : Gives) → gives_by out st.new [] give ≡ type_find_or_form (Q.queries q.now) args.now st.old give) }
{
    let [v, w] = args else {
        return Ok(stuck_member(st));
    };
    let Some(n) = held_number(w) else {
        return Ok(stuck_member(st));
    };
    find_named(alloc, q, n != 0, v, st)
}

/// Type.GetType by a name.
pub fn find_form<Q: Answers>(
    alloc: Global,
    q: &Q,
    throws: bool,
    args: &[Value],
    st: &mut State,
) -> Result<CoreOut, NoMemory>
    ensures { IfOk result (λ out. (give : Gives) → gives_by out st.new [] give ≡ find_form throws (Q.queries q.now) args.now st.old give) }
{
    if throws {
        type_find_or(alloc, q, args, st)
    } else {
        type_find(alloc, q, args, st)
    }
}
