/// Why a run over a sink gave no end.
#[derive(Clone, Copy, Debug, PartialEq, Eq)]
pub(crate) enum RunFault {
    /// The sink failed.
    Write,
    NoMemory,
}
