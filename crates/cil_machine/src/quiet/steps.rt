//! Many steps of simple instructions.

ghost use Rattle.std.specs.Prelude.{◌≡◌, ◌+◌, ◌≤◌, ℕ, IfOk};
ghost use Rattle.rules.specs.step_rules.Run.{run};

use crate::quiet::forms::quiet;
use il_base::NoMemory;
use il_base::cil_values::State;
use machine_words::cil_closing::body_of;
use machine_words::cil_queries::Answers;
use std::alloc::Global;

/// Makes steps while they are those of simple instructions in one frame, at most `most`, and gives their number. They print
/// nothing: a run from the first state is that many steps longer than one from the last, and the same.
pub fn quiet_steps<Q: Answers>(
    alloc: Global,
    q: &Q,
    st: &mut State,
    most: u64,
) -> Result<u64, NoMemory>
    ensures within { IfOk result (λ made. made ≤ most) }
    ensures steps { IfOk result (λ made. (n : ℕ) → run (Q.queries q.now) (made + n) st.old ≡ run (Q.queries q.now) n st.new) }
{
    let Some(body) = body_of(q, &st.top) else {
        return Ok(0);
    };
    for made in 0..most {
        let Some(i) = q.instruction(st.top.method.method.0, st.top.at) else {
            return Ok(made);
        };
        if !quiet(alloc, q, &body, i, st)? {
            return Ok(made);
        }
    }
    Ok(most)
}
