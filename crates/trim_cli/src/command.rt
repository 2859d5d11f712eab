use il_base::Seq;

/// The command that the words spell. Words are named by their places, counted from 0.
#[derive(Drop)]
pub enum Command {
    /// `exec IN.. [--steps N]`
    Exec {
        inputs: Seq<usize>,
        steps: u64,
    },
    /// `trim OUT IN.. [--descriptor FILE].. [--internalize] [--keep-list FILE]`
    Trim {
        output: usize,
        inputs: Seq<usize>,
        descriptors: Seq<usize>,
        list: Option<usize>,
        internalize: bool,
    },
}

/// The kind of the next word after `trim`.
#[derive(Clone, Copy, Debug, PartialEq, Eq)]
pub(crate) enum Awaited {
    /// An option or a name.
    Word,
    /// The value of `--descriptor`.
    Descriptor,
    /// The value of `--keep-list`.
    KeepList,
}

/// The state of reading the words after `trim`.
#[derive(Drop)]
pub(crate) struct TrimProgress {
    /// Whether the word `--` was read: every later word is a name.
    pub(crate) names_only: bool,
    pub(crate) awaits: Awaited,
    pub(crate) output: Option<usize>,
    pub(crate) inputs: Seq<usize>,
    pub(crate) descriptors: Seq<usize>,
    pub(crate) list: Option<usize>,
    pub(crate) internalize: bool,
}
