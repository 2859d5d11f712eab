//! Members of Object.

ghost use Rattle.std.specs.Prelude.{◌≡◌, []};
ghost use Rattle.rules.specs.step_rules.Queries.{Queries};
ghost use Rattle.rules.specs.step_rules.CoreWords.{Gives};
ghost use Rattle.rules.specs.step_rules.CoreObjects.{halt, idle_form, is_same, same_form};
ghost use Rattle.cil_core.specs.cil_members.Outs.{gives_by};

use crate::cil_members::{CoreOut, gives_truth, stopped_member, stuck_member};
use il_base::cil_values::{State, Value};

/// Ends the run.
#[tactic(auto, unfolding(rules::specs::step_rules::CoreObjects::halt))]
pub fn halt(args: &[Value], st: &State) -> CoreOut
    ensures { (q : Queries) (give : Gives) → gives_by result st.now [] give ≡ halt q args.now st.now give }
{
    stopped_member(st)
}

/// Does nothing.
#[tactic(auto, unfolding(rules::specs::step_rules::CoreObjects::idle_form))]
pub fn idle(args: &[Value], st: &State) -> CoreOut
    ensures { (q : Queries) (give : Gives) → gives_by result st.now [] give ≡ idle_form q args.now st.now give }
{
    CoreOut::Gave(None)
}

/// Whether two references are the same: objects, or both null. None for any other values.
pub fn is_same(v: &Value, w: &Value) -> Option<bool>
    ensures { result ≡ is_same v.now w.now }
{
    match (v, w) {
        (Value::Null, Value::Null) => Some(true),
        (Value::Null, Value::Object(_)) => Some(false),
        (Value::Object(_), Value::Null) => Some(false),
        (Value::Object(a), Value::Object(b)) => Some(*a == *b),
        _ => None,
    }
}

/// Object.Equals(object), and the static Object.ReferenceEquals(object, object).
#[tactic(auto, unfolding(rules::specs::step_rules::CoreObjects::same_form))]
pub fn same(args: &[Value], st: &State) -> CoreOut
    ensures { (q : Queries) (give : Gives) → gives_by result st.now [] give ≡ same_form q args.now st.now give }
{
    match args {
        [v, w] => match is_same(v, w) {
            None => stuck_member(st),
            Some(holds) => gives_truth(st, holds),
        },
        _ => stuck_member(st),
    }
}
