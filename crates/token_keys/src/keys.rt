use mark_parts::mark_tables::assembly::Assembly;
use mark_parts::mark_tables::marker::Marker;
use merge_plan::moved_parts::NewTokens;

/// An assembly of a world, and the numbers of the types that its tokens name.
#[derive(Clone, Copy)]
pub struct Keys<'a> {
    pub marker: &'a Marker<'a>,
    pub asm: Assembly<'a>,
    pub numbers: &'a NewTokens,
}
