/// How a call changes the source of its first argument, which its result then has.
#[derive(Clone, Copy, Debug, PartialEq, Eq)]
pub enum Turning {
    /// A type's handle becomes the type.
    FromHandle,
    /// A name becomes the type that it names.
    FromText,
}

/// What an instruction does with sources. A slot is an argument or a local by its number, the arguments first; what is on the
/// evaluation stack comes after them, from the bottom.
#[derive(Clone, Copy, Debug, PartialEq, Eq)]
pub enum Move<S> {
    /// It puts what an argument or a local has on the stack.
    Load(u32),
    /// It puts the one value that it takes into an argument or a local.
    Store(u32),
    /// It puts the one value that it takes back, twice.
    Twice,
    /// It puts the one value that it takes back.
    Back,
    /// It puts a value of a source there.
    Make(S),
    /// It puts the first value that it takes there, with another source.
    Turn(Turning),
    /// It puts nothing there.
    Nothing,
}
