use crate::slashed_names::names::SlashedNames;
use mark_parts::mark_tables::assembly::Assembly;

/// Whose generic parameters a signature has: tokens of a type and of a method, 0 for none.
#[derive(Clone, Copy, Debug, PartialEq, Eq)]
pub struct Owners {
    pub typ: u32,
    pub method: u32,
}

/// What the text of a signature is made of: the names of all types, its assembly, and the owners of its generic parameters.
#[derive(Clone, Copy)]
pub struct Spelling<'a> {
    pub names: &'a SlashedNames,
    pub asm: Assembly<'a>,
    pub owners: Owners,
}
