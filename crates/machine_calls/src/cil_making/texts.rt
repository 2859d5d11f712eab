//! `ldstr`.

ghost use Rattle.std.specs.Prelude.{◌≡◌, [], ◌∷◌, IfOk};
ghost use Rattle.il_base.specs.declared.cil_values.value.Value.TheVariants.{Object};
ghost use Rattle.rules.specs.step_rules.Words.{goes};
ghost use Rattle.rules.specs.step_rules.Objects.{interned};
ghost use Rattle.rules.specs.step_rules.Texts.{load_string};
ghost use Rattle.machine_words.specs.cil_words.Steps.{here_by, next_of};

use il_base::cil_values::{Instruction, State, Use, Value};
use il_base::world_model::Known;
use il_base::{NoMemory, Units};
use machine_words::cil_objects::interned;
use machine_words::cil_queries::Answers;
use machine_words::cil_words::{Body, StepOut, goes, stopped, stuck};
use std::alloc::Global;

/// The object of a text is pushed.
#[tactic(auto, unfolding(rules::specs::step_rules::Words::goes_with))]
fn loads(
    alloc: Global,
    body: &Body,
    i: &Instruction,
    units: &Units,
    st: &mut State,
) -> Result<StepOut, NoMemory>
    ensures { IfOk result (λ out. next_of out st.new [] ≡ interned units.now st.old (λ a t. goes (here_by body.now st.old) i.now (Object a ∷ t.top.stack) t)) }
{
    let full = stopped(st);
    let Some(a) = interned(alloc, st, units)? else {
        return Ok(full);
    };
    drop(full);
    st.top.stack.push(Value::Object(a))?;
    Ok(goes(body, i, st))
}

/// `ldstr` (III.4.16): one object for each text.
#[tactic(auto, unfolding(rules::specs::step_rules::Texts::load_string))]
pub fn load_string<Q: Answers>(
    alloc: Global,
    q: &Q,
    body: &Body,
    i: &Instruction,
    st: &mut State,
) -> Result<StepOut, NoMemory>
    ensures { IfOk result (λ out. next_of out st.new [] ≡ load_string (Q.queries q.now) (here_by body.now st.old) i.now st.old) }
{
    match &i.operand {
        Use::Text(Known::Good(units)) => loads(alloc, body, i, units, st),
        Use::Text(Known::Bad(_)) => Ok(stopped(st)),
        Use::Nothing => Ok(stuck(st)),
        Use::Number(_) => Ok(stuck(st)),
        Use::Slot(_) => Ok(stuck(st)),
        Use::Target(_) => Ok(stuck(st)),
        Use::Targets(_) => Ok(stuck(st)),
        Use::Typ(_) => Ok(stuck(st)),
        Use::Method(_) => Ok(stuck(st)),
        Use::Field(_) => Ok(stuck(st)),
    }
}
