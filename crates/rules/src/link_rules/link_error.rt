/// Why assemblies don't make a world.
#[derive(Clone, Copy, Debug, PartialEq, Eq)]
pub enum LinkError {
    /// The first demand of linking that fails.
    Bad {
        /// The assembly, from 0.
        file: u32,
        /// 14 for a duplicate name of an assembly, 15 for a type on a cycle, 16 for an encloser on a cycle, 17 for a duplicate
        /// member.
        why: u8,
        /// The row, 0 for an assembly's name.
        token: u32,
    },
    NoMemory,
}
