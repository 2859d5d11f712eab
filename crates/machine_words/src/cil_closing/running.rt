//! The body that a frame runs.

ghost use Rattle.std.specs.Prelude.{◌≡◌, Some, None, MatchOption};
ghost use Rattle.rules.specs.step_rules.Words.{here_of, here_in};

use crate::cil_queries::Answers;
use crate::cil_words::Body;
use il_base::cil_values::Frame;
use il_base::world_model::Known;

/// What a frame runs. None where its method has no body that can run.
#[tactic(auto, unfolding(rules::specs::step_rules::Words::here_of))]
pub fn body_of<'a, Q: Answers>(q: &'a Q, f: &Frame) -> Option<Body<'a>>
    ensures { MatchOption result (here_of (Q.queries q.now) f.now ≡ None) (λ body. here_of (Q.queries q.now) f.now ≡ Some (here_in f.now body.method.now body.code.now)) }
{
    let Some(method) = q.method(f.method.method.0) else {
        return None;
    };
    match &method.body {
        None => None,
        Some(Known::Bad(_)) => None,
        Some(Known::Good(code)) => Some(Body { method, code }),
    }
}
