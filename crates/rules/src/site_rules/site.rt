use crate::flow_rules::Source;
use crate::site_rules::target::Target;
use il_base::{Place, Seq, Units};

/// A place that asks for members of the types that its sources stand for, or for a type by its name.
#[derive(Drop)]
pub struct Site {
    /// The row that asks by its token, and for an instruction its IL offset in bytes, else 0.
    pub place: Place,
    pub target: Target,
    /// The kinds of members that are asked for, as in an annotation; 0 where a name is looked for.
    pub kinds: u32,
    /// The texts that are looked for, in UTF-16, where all of them are known.
    pub names: Option<Seq<Units>>,
    /// What may be there.
    pub sources: Seq<Source>,
}
