//! Fields with their closed owners.

ghost use Rattle.std.specs.Prelude.{◌≡◌, IfOk};
ghost use Rattle.std.specs.Option.{option_map};
ghost use Rattle.rules.specs.step_rules.Closing.{accessed_use};
ghost use Rattle.machine_words.specs.cil_closing.Callees.{accessed_by};
ghost use Rattle.machine_words.specs.cil_words.Steps.{here_by};

use crate::cil_closing::closed_types::closed_cell;
use crate::cil_closing::plain::args_of;
use crate::cil_queries::Answers;
use crate::cil_words::Body;
use il_base::NoMemory;
use il_base::cil_values::{FieldDef, State};
use il_base::world_model::{FieldUse, TypeExpr};
use std::alloc::Global;

/// A field that is accessed.
#[derive(Drop)]
pub struct Accessed<'a> {
    /// The field by its place in the world.
    pub id: u32,
    /// The closed type in which it was found.
    pub owner: TypeExpr,
    pub field: &'a FieldDef,
}

/// A field with the running method's arguments put into its owner. None where the owner has then no meaning.
#[tactic(auto, unfolding(rules::specs::step_rules::Closing::accessed_use))]
pub fn accessed_use<'a, Q: Answers>(
    alloc: Global,
    q: &'a Q,
    body: &Body,
    st: &State,
    used: &FieldUse,
) -> Result<Option<Accessed<'a>>, NoMemory>
    ensures { IfOk result (λ found. option_map accessed_by found ≡ accessed_use (Q.queries q.now) (here_by body.now st.now) used.now) }
{
    let targs = args_of(&st.top.method.owner);
    let margs = st.top.method.args.as_slice();
    let Some(owner) = closed_cell(alloc, q, targs, margs, &used.owner)? else {
        return Ok(None);
    };
    let Some(field) = q.field(used.field.0) else {
        return Ok(None);
    };
    Ok(Some(Accessed {
        id: used.field.0,
        owner,
        field,
    }))
}
