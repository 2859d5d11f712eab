use il_base::core_table::CoreName;

/// Why an instruction gives no value. The operands are then still on the evaluation stack.
#[derive(Clone, Copy, Debug, PartialEq, Eq)]
pub enum Refusal {
    /// It raises an exception of this class.
    Raises(CoreName),
    /// A place that is gone ends the run.
    Stopped,
    /// The code breaks a rule.
    Stuck,
}
