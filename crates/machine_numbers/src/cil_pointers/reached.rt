use il_base::cil_values::{Path, Value};

/// What an instruction finds where a reference leads.
#[derive(Drop)]
pub enum Reached {
    /// A place, and the value there.
    At(Path, Value),
    /// The reference is null.
    Null,
    /// The place is gone, or there is none: the run is stopped.
    Gone,
    /// The code breaks a rule.
    Refused,
}
