//! What an instruction on operands comes to.

use il_base::cil_values::Value;
use il_base::core_table::CoreName;

/// What an instruction on operands comes to.
#[derive(Drop)]
pub enum Outcome {
    /// The value that it pushes.
    Gives(Value),
    /// The exception that it raises.
    Raises(CoreName),
}
