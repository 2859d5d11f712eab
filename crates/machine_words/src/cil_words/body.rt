use il_base::cil_values::{Code, Method};

/// The method that runs in the top frame, and its body. The closed arguments of its type and of itself are in the frame.
#[derive(Clone, Copy)]
pub struct Body<'a> {
    pub method: &'a Method,
    pub code: &'a Code,
}
