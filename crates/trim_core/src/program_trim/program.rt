use descriptor_file::Root;
use il_base::world_model::World;
use rules::link_rules::RowAt;

/// A program to be trimmed.
#[derive(Clone, Copy)]
pub(crate) struct Program<'a> {
    /// The linked world.
    pub world: &'a World,
    /// The entry method.
    pub entry: Option<RowAt>,
    /// The elements of descriptors.
    pub roots: &'a [Root],
    /// Whether public types of all inputs but the first become internal.
    pub internal: bool,
}
