ghost use Rattle.std.specs.Prelude.{◌≡◌};
ghost use Rattle.descriptor_file.specs.declared.error.DescriptorError.TheVariants as descriptor_error;

use il_base::NoMemory;

/// Why a descriptor isn't read.
#[derive(Clone, Copy, Debug, PartialEq, Eq)]
pub enum DescriptorError {
    /// `at` is the place in the file, in bytes, of the first byte of the first token that isn't allowed there: a tag start, an
    /// attribute, a tag end, a comment or text; the file's length where it ends too early.
    Bad { at: u32 },
    /// The allocator refused.
    NoMemory,
}

impl From<NoMemory> for DescriptorError {
    ghost from_gives = { λ _ e. e ≡ descriptor_error.NoMemory };

    fn from(_error: NoMemory) -> DescriptorError {
        DescriptorError::NoMemory
    }
}
