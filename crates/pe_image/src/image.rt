ghost use Rattle.std.specs.Prelude.{◌≡◌, ◌+◌, ◌<◌, ◌≤◌, ◌^◌, ◌||◌, length, None, Some, IfOk, IfSome, is_some, unwrap_or};
ghost use Rattle.std.specs.Option.{option_map};
ghost use Rattle.il_base.specs.cli_format.Demand.{Checked, demand, bad};
ghost use Rattle.il_base.specs.cli_format.Image.{image_demands, image_at, image_place, image_tail, metadata_of, metadata_place_of, entry_token_of, cli_flags_of, subsystem_of, resources_of, sections_place, section_count, cli_place, directory_place, cli_demands, il_only_demands, metadata_demands, metadata_place_in, metadata_size, mapped};

use crate::headers::read_headers;
use crate::sections::{Sections, part};
use il_base::BadAt;
use il_base::cli_format::{BAD_RVA, NATIVE, NO_CLI, NOT_IL_ONLY, need, u32_in, u64_in};
use std::marker::Model;

/// The PE image of a file (II.25). Contracts see the bytes of the file.
#[derive(Debug, Drop)]
pub struct Image<'a> {
    sections: Sections<'a>,
    cli: u32,
    metadata: u32,
    subsystem: u16,
}

impl<'a> Model for Image<'a> {
    ghost use Rattle.std.specs.Prelude.{◌≡◌, ◌+◌, ◌≤◌, ℕ, List, Some, length};
    ghost use Rattle.il_base.specs.cli_format.Image.{cli_place, metadata_place_in, metadata_size, subsystem_of};

    ghost Value = { List ℕ };

    ghost view = { λ i. i.sections };

    ghost invariant = { λ i. (i.cli ≡ cli_place i.sections) × (i.cli + 72 ≤ length i.sections) × (metadata_place_in i.sections ≡ Some i.metadata) × (i.metadata + metadata_size i.sections ≤ length i.sections) × (i.subsystem ≡ subsystem_of i.sections) };
}

impl<'a> Image<'a> {
    /// The image of a file. A refusal is that of the first demand that fails.
    #[tactic(auto, using(il_base::proofs::lemmas::cli_format::Faults::faults), unfolding(il_base::specs::cli_format::Image::image_demands))]
    pub fn read(bytes: &'a [u8]) -> Result<Image<'a>, BadAt>
        requires { length bytes.now < 2 ^ 32 }
        ensures { Checked result (image_demands bytes.now) bytes.now }
    {
        let headers = read_headers(bytes)?;
        let sections = Sections::new(bytes, headers.sections, headers.count);
        let cli = find_cli(&sections, headers.directory)?;
        check_il_only(bytes, cli)?;
        let metadata = find_metadata(&sections, cli)?;
        Ok(Image {
            sections,
            cli,
            metadata,
            subsystem: headers.subsystem,
        })
    }

    /// The sections of the file.
    pub(crate) fn sections(&self) -> &Sections<'a>
        ensures { result.now ≡ self.now }
    {
        &self.sections
    }

    /// The `len` bytes that an RVA names: in the first section that it lies in, within its raw bytes (II.25.3).
    pub fn at(&self, rva: u32, len: u32) -> Option<&'a [u8]>
        ensures { option_map (λ b. b.now) result ≡ image_at self.now rva len }
    {
        self.sections.at_in(self.sections.find(rva), rva, len)
    }

    /// The place in the file of the byte that an RVA names.
    pub fn place(&self, rva: u32) -> Option<u32>
        ensures { result ≡ image_place self.now rva }
    {
        self.sections.map(rva, 0)
    }

    /// The bytes from the one that an RVA names to the end of its section's raw bytes.
    pub fn tail(&self, rva: u32) -> Option<&'a [u8]>
        ensures value { option_map (λ b. b.now) result ≡ image_tail self.now rva }
        ensures within { IfSome result (λ b. length b.now < 2 ^ 32) }
    {
        self.sections.tail_in(self.sections.find(rva), rva)
    }

    /// The bytes of the metadata (II.24).
    #[tactic(auto, unfolding(il_base::specs::cli_format::Image::metadata_of, il_base::specs::cli_format::Image::metadata_place_of, il_base::specs::cli_format::Image::metadata_size))]
    pub fn metadata(&self) -> &'a [u8]
        ensures value { result.now ≡ metadata_of self.now }
        ensures within { metadata_place_of self.now + length result.now ≤ length self.now }
    {
        let bytes = self.sections.bytes();
        let size = u32_in(bytes, self.cli as usize + 12);
        part(bytes, self.metadata as usize, size as usize)
    }

    /// The place of the metadata in the file.
    #[tactic(auto, unfolding(il_base::specs::cli_format::Image::metadata_place_of))]
    pub fn metadata_place(&self) -> u32
        ensures { result ≡ metadata_place_of self.now }
    {
        self.metadata
    }

    /// The entry point's token (II.25.3.3), 0 where there is none.
    #[tactic(auto, unfolding(il_base::specs::cli_format::Image::entry_token_of))]
    pub fn entry_token(&self) -> u32
        ensures { result ≡ entry_token_of self.now }
    {
        u32_in(self.sections.bytes(), self.cli as usize + 20)
    }

    /// The flags of the CLI header (II.25.3.3.1).
    #[tactic(auto, unfolding(il_base::specs::cli_format::Image::cli_flags_of))]
    pub fn cli_flags(&self) -> u32
        ensures { result ≡ cli_flags_of self.now }
    {
        u32_in(self.sections.bytes(), self.cli as usize + 16)
    }

    /// The subsystem of the optional header (II.25.2.3.2).
    pub fn subsystem(&self) -> u16
        ensures { result ≡ subsystem_of self.now }
    {
        self.subsystem
    }

    /// The resources (II.25.3.3). None where their RVA is 0 or the range isn't mapped.
    #[tactic(auto, unfolding(il_base::specs::cli_format::Image::resources_of))]
    pub fn resources(&self) -> Option<&'a [u8]>
        ensures { option_map (λ b. b.now) result ≡ resources_of self.now }
    {
        let bytes = self.sections.bytes();
        let rva = u32_in(bytes, self.cli as usize + 24);
        let size = u32_in(bytes, self.cli as usize + 28);
        if rva == 0 { None } else { self.at(rva, size) }
    }
}

/// The place of the CLI header (II.25.3.3).
#[tactic(auto, using(il_base::proofs::lemmas::cli_format::Faults::faults), unfolding(il_base::specs::cli_format::Image::cli_demands, il_base::specs::cli_format::Image::cli_place))]
fn find_cli(sections: &Sections, directory: usize) -> Result<u32, BadAt>
    requires place { directory ≡ directory_place sections.now }
    requires reach { directory + 4 ≤ length sections.now }
    ensures checked { Checked result (cli_demands sections.now) (cli_place sections.now) }
    ensures within { IfOk result (λ at. at + 72 ≤ length sections.now) }
{
    let bytes = sections.bytes();
    let place = need_mapped(sections.map(u32_in(bytes, directory), 72), directory)?;
    need(u32_in(bytes, place as usize) == 72, place as usize, NO_CLI)?;
    Ok(place)
}

/// The image has IL only (II.25.3.3.1), neither VTableFixups nor a ManagedNativeHeader.
#[tactic(auto, using(il_base::proofs::lemmas::cli_format::Faults::faults), unfolding(il_base::specs::cli_format::Image::il_only_demands, il_base::specs::cli_format::Image::cli_flags_of))]
fn check_il_only(bytes: &[u8], cli: u32) -> Result<(), BadAt>
    requires small { length bytes.now < 2 ^ 32 }
    requires place { cli ≡ cli_place bytes.now }
    requires reach { cli + 72 ≤ length bytes.now }
    ensures { Checked result (il_only_demands bytes.now) tt }
{
    let at = cli as usize;
    let flags = u32_in(bytes, at + 16);
    need(flags & 1 == 1, at + 16, NOT_IL_ONLY)?;
    need(flags & 16 == 0, at + 16, NATIVE)?;
    need(u64_in(bytes, at + 48) == 0, at + 48, NATIVE)?;
    need(u64_in(bytes, at + 64) == 0, at + 64, NATIVE)?;
    Ok(())
}

/// The place of the metadata (II.24).
#[tactic(auto, using(il_base::proofs::lemmas::cli_format::Faults::faults), unfolding(il_base::specs::cli_format::Image::metadata_demands, il_base::specs::cli_format::Image::metadata_place_in, il_base::specs::cli_format::Image::metadata_place_of, il_base::specs::cli_format::Image::metadata_size))]
fn find_metadata(sections: &Sections, cli: u32) -> Result<u32, BadAt>
    requires place { cli ≡ cli_place sections.now }
    requires reach { cli + 72 ≤ length sections.now }
    ensures checked { Checked result (metadata_demands sections.now) (metadata_place_of sections.now) }
    ensures found { IfOk result (λ at. metadata_place_in sections.now ≡ Some at) }
    ensures within { IfOk result (λ at. at + metadata_size sections.now ≤ length sections.now) }
{
    let bytes = sections.bytes();
    let at = cli as usize;
    let found = sections.map(u32_in(bytes, at + 8), u32_in(bytes, at + 12));
    let place = need_mapped(found, at + 8)?;
    Ok(place)
}

/// The place that was found, or the refusal of a directory at an offset that isn't mapped.
#[tactic(auto, unfolding(il_base::specs::cli_format::Demand::demand, il_base::specs::cli_format::Demand::first_fault))]
fn need_mapped(found: Option<u32>, offset: usize) -> Result<u32, BadAt>
    requires { offset < 2 ^ 32 }
    ensures checked { Checked result (demand (is_some found) (bad offset BAD_RVA)) (unwrap_or found 0) }
    ensures found { IfOk result (λ at. found ≡ Some at) }
{
    match found {
        Some(place) => Ok(place),
        None => {
            let offset = offset as u32;
            Err(BadAt {
                offset,
                why: BAD_RVA,
            })
        }
    }
}
