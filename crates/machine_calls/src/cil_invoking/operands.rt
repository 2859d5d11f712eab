//! Method operands.

ghost use Rattle.std.specs.Prelude.{◌≡◌, IfOk};
ghost use Rattle.rules.specs.step_rules.Next.{Next};
ghost use Rattle.std.specs.Option.{option_and_then};
ghost use Rattle.rules.specs.step_rules.Words.{had};
ghost use Rattle.rules.specs.step_rules.Closing.{Callee as Called, callee_of, closed_method_use};
ghost use Rattle.machine_calls.specs.cil_invoking.Operands.{goes_with_operand, method_operand};
ghost use Rattle.machine_words.specs.cil_words.Steps.{here_by};

use il_base::NoMemory;
use il_base::cil_values::{State, Use};
use il_base::world_model::{Known, MethodUse};
use machine_words::cil_closing::{Callee, closed_use};
use machine_words::cil_queries::Answers;
use machine_words::cil_words::Body;
use std::alloc::Global;

/// What the operand of an instruction is in the running method.
#[derive(Drop)]
pub enum Operand<'a> {
    Named(Callee<'a>),
    /// A method that has no meaning.
    Meaningless,
    /// No method.
    Another,
}

/// A method operand that names a method.
#[tactic(auto, unfolding(rules::specs::step_rules::Closing::closed_use))]
fn named<'a, Q: Answers>(
    alloc: Global,
    q: &'a Q,
    body: &Body,
    st: &State,
    used: &MethodUse,
) -> Result<Operand<'a>, NoMemory>
    ensures { IfOk result (λ found. (f : Called → Next) → had (option_and_then (callee_of (Q.queries q.now)) (closed_method_use (Q.queries q.now) (here_by body.now st.now) used.now)) st.now f ≡ goes_with_operand found st.now f) }
{
    match closed_use(alloc, q, body, st, used)? {
        None => Ok(Operand::Meaningless),
        Some(c) => Ok(Operand::Named(c)),
    }
}

/// The method of an operand.
#[tactic(auto, unfolding(rules::specs::step_rules::Closing::closed_use))]
pub fn method_operand<'a, Q: Answers>(
    alloc: Global,
    q: &'a Q,
    body: &Body,
    st: &State,
    used: &Use,
) -> Result<Operand<'a>, NoMemory>
    ensures { IfOk result (λ found. (f : Called → Next) → method_operand (Q.queries q.now) (here_by body.now st.now) used.now st.now f ≡ goes_with_operand found st.now f) }
{
    match used {
        Use::Method(Known::Good(used)) => named(alloc, q, body, st, used),
        Use::Method(Known::Bad(_)) => Ok(Operand::Meaningless),
        Use::Nothing => Ok(Operand::Another),
        Use::Number(_) => Ok(Operand::Another),
        Use::Slot(_) => Ok(Operand::Another),
        Use::Target(_) => Ok(Operand::Another),
        Use::Targets(_) => Ok(Operand::Another),
        Use::Typ(_) => Ok(Operand::Another),
        Use::Field(_) => Ok(Operand::Another),
        Use::Text(_) => Ok(Operand::Another),
    }
}
