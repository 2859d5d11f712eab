use il_base::cil_values::Value;
use machine_words::cil_words::StepOut;

/// What a call of a member comes to.
#[derive(Drop)]
pub enum CoreOut {
    /// It is whole in this step, and gives this value or nothing.
    Gave(Option<Value>),
    /// A method was entered, or the run is over.
    Stepped(StepOut),
}
