use il_base::cil_values::Path;

/// What an access finds where a reference leads.
#[derive(Drop)]
pub enum Placed {
    /// The place of the field.
    At(Path),
    /// The reference is null.
    Null,
    /// The place is gone, or there is none: the run is stopped.
    Gone,
    /// The code breaks a rule.
    Refused,
}
