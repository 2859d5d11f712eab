ghost use Rattle.std.specs.Prelude.{◌≡◌, ◌<◌, ◌^◌, length, IfOk, IfSome};
ghost use Rattle.std.specs.Option.{option_map};
ghost use Rattle.il_base.specs.cli_format.Image.{image_at, image_tail};

use crate::image::Image;
use crate::stretches::{Stretch, find};
use il_base::NoMemory;
use std::alloc::Global;
use std::marker::Model;

/// An image with a list of stretches of its memory, of each of which the first section that holds it is known (II.25.3). The
/// section of an RVA is found by binary search, where `Image` goes through the section headers: it is for a file with many
/// sections in which many RVAs are looked up. Contracts see the bytes of the file.
#[derive(Debug, Drop)]
pub struct ImageMap<'a> {
    image: Image<'a>,
    /// The memory of all sections.
    stretches: Vec<Stretch>,
}

impl<'a> Model for ImageMap<'a> {
    ghost use Rattle.std.specs.Prelude.{ℕ, List};
    ghost use Rattle.il_base.specs.cli_format.Image.{section_count};
    ghost use Rattle.pe_image.specs.Stretches.{AreOf};

    ghost Value = { List ℕ };

    ghost view = { λ m. m.image };

    ghost invariant = { λ m. AreOf m.image (section_count m.image) 0 m.stretches.items };
}

impl<'a> ImageMap<'a> {
    /// The map of an image.
    pub fn of(alloc: Global, image: Image<'a>) -> Result<ImageMap<'a>, NoMemory>
        ensures { IfOk result (λ m. m ≡ image.entry) }
    {
        let stretches = image.sections().stretches(alloc)?;
        Ok(ImageMap { image, stretches })
    }

    /// The image.
    pub fn image(&self) -> &Image<'a>
        ensures { result.now ≡ self.now }
    {
        &self.image
    }

    /// The `len` bytes that an RVA names: in the first section that it lies in, within its raw bytes (II.25.3).
    #[tactic(auto, using(crate::proofs::Looking::looking))]
    pub fn at(&self, rva: u32, len: u32) -> Option<&'a [u8]>
        ensures { option_map (λ b. b.now) result ≡ image_at self.now rva len }
    {
        let section = find(&self.stretches, rva);
        self.image.sections().at_in(section, rva, len)
    }

    /// The bytes from the one that an RVA names to the end of its section's raw bytes.
    #[tactic(auto, using(crate::proofs::Looking::looking))]
    pub fn tail(&self, rva: u32) -> Option<&'a [u8]>
        ensures value { option_map (λ b. b.now) result ≡ image_tail self.now rva }
        ensures within { IfSome result (λ b. length b.now < 2 ^ 32) }
    {
        let section = find(&self.stretches, rva);
        self.image.sections().tail_in(section, rva)
    }
}
