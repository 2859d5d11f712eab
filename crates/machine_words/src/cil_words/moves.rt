//! Going on, to the next instruction or as a branch goes.

ghost use Rattle.std.specs.Prelude.{◌≡◌, []};
ghost use Rattle.rules.specs.step_rules.Words.{may_go, may_pass, goes, branches};
ghost use Rattle.machine_words.specs.cil_words.Steps.{next_of, here_by};

use crate::cil_words::body::Body;
use crate::cil_words::ends::stuck;
use crate::cil_words::step_out::StepOut;
use il_base::cil_values::{Clause, Code, Instruction, Prefix, State};

fn covers(from: u32, end: u32, at: u32) -> bool
    ensures { result ≡ Rattle.rules.specs.step_rules.Words.covers from end at }
{
    from <= at && at < end
}

/// Whether a branch, or the fall to the next instruction, may go past a clause.
#[tactic(auto, unfolding(rules::specs::step_rules::Words::may_go))]
fn may_pass(c: &Clause, at: u32, to: u32) -> bool
    ensures { result ≡ may_pass at to c.now }
{
    let in_try = covers(c.try_at, c.try_end, at);
    let to_try = covers(c.try_at, c.try_end, to);
    let in_handler = covers(c.at, c.end, at);
    let to_handler = covers(c.at, c.end, to);
    (!in_try || to_try) && (!in_handler || to_handler) && (!to_handler || in_handler)
}

/// Whether control may go from one IL offset to another by a branch or a fall: it leaves no try block and no handler, and
/// enters no handler (I.12.4.2.8).
#[tactic(auto, unfolding(rules::specs::step_rules::Words::may_go))]
pub fn may_go(code: &Code, at: u32, to: u32) -> bool
    ensures { result ≡ may_go code.now at to }
{
    code.clauses.as_slice().iter().all(|c| may_pass(c, at, to))
}

/// Goes to another offset, as a branch does, with the evaluation stack as it is.
#[tactic(auto, unfolding(rules::specs::step_rules::Words::branches))]
pub fn branches(body: &Body, i: &Instruction, to: u32, st: &mut State) -> StepOut
    ensures { next_of result st.new [] ≡ branches (here_by body.now st.old) i.now to st.old.top.stack st.old }
{
    if !may_go(body.code, i.at, to) {
        return stuck(st);
    }
    st.top.at = to;
    st.top.prefix = Prefix::None;
    StepOut::Went
}

/// Goes to the next instruction, with the evaluation stack as it is.
#[tactic(auto, unfolding(rules::specs::step_rules::Words::goes_with))]
pub fn goes(body: &Body, i: &Instruction, st: &mut State) -> StepOut
    ensures { next_of result st.new [] ≡ goes (here_by body.now st.old) i.now st.old.top.stack st.old }
{
    if !may_go(body.code, i.at, i.next) {
        return stuck(st);
    }
    st.top.at = i.next;
    st.top.prefix = Prefix::None;
    StepOut::Went
}
