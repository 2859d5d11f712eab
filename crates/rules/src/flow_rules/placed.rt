use il_base::Handler;

/// An exception handling clause with its number, counted from 0.
#[derive(Clone, Copy, Debug, PartialEq, Eq)]
pub struct Placed {
    pub place: usize,
    pub clause: Handler,
}
