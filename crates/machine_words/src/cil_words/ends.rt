//! Ends of a run at the instruction of the top frame.

ghost use Rattle.std.specs.Prelude.{◌≡◌};
ghost use Rattle.il_base.specs.declared.cil_values.end.End.TheVariants.{Stopped, Stuck};
ghost use Rattle.machine_words.specs.declared.cil_words.step_out.StepOut.TheVariants.{Over};

use crate::cil_words::step_out::StepOut;
use il_base::cil_values::{End, State};

/// The code breaks a rule at this instruction.
pub fn stuck(st: &State) -> StepOut
    ensures { result ≡ Over (Stuck st.now.top.method.method st.now.top.at) }
{
    StepOut::Over(End::Stuck {
        method: st.top.method.method,
        offset: st.top.at,
    })
}

/// An operand, a place that is gone, a member that ends the run, or a limit ends the run at this instruction.
pub fn stopped(st: &State) -> StepOut
    ensures { result ≡ Over (Stopped st.now.top.method.method st.now.top.at) }
{
    StepOut::Over(End::Stopped {
        method: st.top.method.method,
        offset: st.top.at,
    })
}
