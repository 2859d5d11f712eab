use il_base::cil_values::End;

/// What a step came to.
#[derive(Drop)]
pub enum StepOut {
    /// The run goes on.
    Went,
    /// The run is over.
    Over(End),
}
