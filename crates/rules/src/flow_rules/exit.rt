use il_base::Seq;

/// What is on the evaluation stack where a step arrives.
#[derive(Clone, Copy, Debug, PartialEq, Eq)]
pub enum Way {
    /// What the instruction leaves there.
    Next,
    /// Nothing: `leave` and `endfinally` empty it (III.3.46, III.3.35).
    Emptied,
    /// The caught exception alone: a catch handler begins (I.12.4.2.5).
    Caught,
    /// Nothing: a finally or fault handler begins because of an exception.
    Unwound,
}

/// A step from an instruction to another.
#[derive(Clone, Copy, Debug, PartialEq, Eq)]
pub struct Step {
    /// The place of an instruction in the body, counted from 0; the number of instructions where there is none.
    pub to: u32,
    pub way: Way,
}

/// What an instruction takes from the evaluation stack and puts there, and the steps from it.
#[derive(Drop)]
pub struct Exit {
    /// Values taken.
    pub pops: u32,
    /// Values put there after that.
    pub pushes: u32,
    pub steps: Seq<Step>,
}
