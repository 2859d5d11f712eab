use crate::{Boxed, MethodId, Text};

/// How a run ends. Texts stand in boxes, so that the answer of a step is short.
#[derive(Drop)]
pub enum End {
    /// The entry method returned; 0 for one that returns nothing.
    Ended {
        code: i32,
    },
    /// An exception that nobody catches: the text of its type and its message, in UTF-8.
    Threw {
        kind: Boxed<Text>,
        message: Boxed<Text>,
    },
    /// An operand that names nothing usable, a place that is gone or has no cell, a member of the core library that ends the run,
    /// or a limit of the machine, was reached at this IL offset of the method.
    Stopped {
        method: MethodId,
        offset: u32,
    },
    /// The code breaks a rule that the machine relies on, at this IL offset of the method.
    Stuck {
        method: MethodId,
        offset: u32,
    },
}
