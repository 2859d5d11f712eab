ghost use Rattle.std.specs.Prelude.{◌≡◌, ◌+◌, ◌*◌, ◌-◌, ◌<◌, ◌≤◌, ◌^◌, length, take, drop, IfSome, IfOk, None};
ghost use Rattle.std.specs.Option.{option_map, option_and_then};
ghost use Rattle.il_base.specs.cli_format.Demand.{Checked, first_fault};
ghost use Rattle.il_base.specs.cli_format.Image.{section_demands, sections_demands, section_at, nth_section, section_of, sections_of, sections_place, section_count, covers, place_in, mapped, image_at, image_tail, tail_in};
ghost use Rattle.pe_image.specs.Stretches.{AreOf};

use crate::stretches::{Stretch, overlay, stretches_of};
use il_base::cli_format::{Section, need_bytes, u32_in};
use il_base::{BadAt, NoMemory};
use std::alloc::Global;
use std::marker::Model;

/// The sections of a file (II.25.3), each of them within the file. Contracts see the bytes of the file.
#[derive(Debug, Drop)]
pub struct Sections<'a> {
    bytes: &'a [u8],
    /// The place of the first section header.
    place: usize,
    count: u16,
}

impl<'a> Model for Sections<'a> {
    ghost use Rattle.std.specs.Prelude.{◌≡◌, ℕ, ◌<◌, ◌^◌, List, length, None};
    ghost use Rattle.il_base.specs.cli_format.Demand.{first_fault};
    ghost use Rattle.il_base.specs.cli_format.Image.{sections_demands, sections_place, section_count};

    ghost Value = { List ℕ };

    ghost view = { λ s. s.bytes.now };

    ghost invariant = { λ s. (s.place ≡ sections_place s.bytes.now) × (s.place < 2 ^ 33) × (s.count ≡ section_count s.bytes.now) × (length s.bytes.now < 2 ^ 32) × (first_fault (sections_demands s.bytes.now) ≡ None) };
}

impl<'a> Sections<'a> {
    /// The sections whose headers begin at a place.
    pub fn new(bytes: &'a [u8], place: usize, count: u16) -> Sections<'a>
        requires small { length bytes.now < 2 ^ 32 }
        requires place { place ≡ sections_place bytes.now }
        requires count { count ≡ section_count bytes.now }
        requires reach { place < 2 ^ 33 }
        requires demands { first_fault (sections_demands bytes.now) ≡ None }
        ensures { result ≡ bytes.now }
    {
        Sections {
            bytes,
            place,
            count,
        }
    }

    /// The bytes of the file.
    pub fn bytes(&self) -> &'a [u8]
        ensures value { result.now ≡ self.now }
        ensures small { length self.now < 2 ^ 32 }
    {
        self.bytes
    }

    /// The first section in which an RVA lies. It is looked for from the first section on.
    #[tactic(auto, using(crate::proofs::Finding::finding))]
    pub fn find(&self, rva: u32) -> Option<Section>
        ensures { result ≡ section_of (sections_of self.now) rva }
    {
        for i in 0..self.count {
            let section = nth(self.bytes, self.place, i);
            if is_covered(&section, rva) {
                return Some(section);
            }
        }
        None
    }

    /// The place in the file of `len` bytes from an RVA, where they lie in the raw bytes of its section.
    pub fn map(&self, rva: u32, len: u32) -> Option<u32>
        ensures value { result ≡ mapped self.now rva len }
        ensures within { IfSome result (λ at. at + len ≤ length self.now) }
    {
        self.map_in(self.find(rva), rva, len)
    }

    /// The place in the file of `len` bytes from an RVA whose first section is known.
    #[tactic(auto, using(crate::proofs::Finding::lying), unfolding(il_base::specs::cli_format::Image::mapped))]
    fn map_in(&self, section: Option<Section>, rva: u32, len: u32) -> Option<u32>
        requires { section ≡ section_of (sections_of self.now) rva }
        ensures value { result ≡ mapped self.now rva len }
        ensures within { IfSome result (λ at. at + len ≤ length self.now) }
    {
        let _small = self.bytes;
        match section {
            None => None,
            Some(section) => place_within(&section, rva, len),
        }
    }

    /// The `len` bytes from an RVA whose first section is known.
    #[tactic(auto, unfolding(il_base::specs::cli_format::Image::image_at))]
    pub fn at_in(&self, section: Option<Section>, rva: u32, len: u32) -> Option<&'a [u8]>
        requires { section ≡ section_of (sections_of self.now) rva }
        ensures { option_map (λ b. b.now) result ≡ image_at self.now rva len }
    {
        match self.map_in(section, rva, len) {
            None => None,
            Some(at) => Some(part(self.bytes(), at as usize, len as usize)),
        }
    }

    /// The bytes from an RVA whose first section is known to the end of the section's raw bytes.
    #[tactic(auto, using(crate::proofs::Finding::lying), unfolding(il_base::specs::cli_format::Image::image_tail))]
    pub fn tail_in(&self, section: Option<Section>, rva: u32) -> Option<&'a [u8]>
        requires { section ≡ section_of (sections_of self.now) rva }
        ensures value { option_map (λ b. b.now) result ≡ image_tail self.now rva }
        ensures within { IfSome result (λ b. length b.now < 2 ^ 32) }
    {
        match section {
            None => None,
            Some(section) => tail_within(self.bytes, &section, rva),
        }
    }

    /// The stretches of all sections.
    pub fn stretches(&self, alloc: Global) -> Result<Vec<Stretch>, NoMemory>
        ensures { IfOk result (λ all. AreOf self.now (section_count self.now) 0 all.items) }
    {
        stretches_from(alloc, self.bytes, self.place, 0, self.count)
    }
}

/// `len` bytes from a place.
pub fn part(bytes: &[u8], at: usize, len: usize) -> &[u8]
    requires { at + len ≤ length bytes.now }
    ensures { result.now ≡ take len (drop at bytes.now) }
{
    &bytes[at..][..len]
}

/// The headers of the sections are in the file, and so are their raw bytes.
#[tactic(auto, using(il_base::proofs::lemmas::cli_format::Faults::faults), unfolding(il_base::specs::cli_format::Image::sections_demands))]
pub fn check_sections(bytes: &[u8], place: usize, count: u16) -> Result<(), BadAt>
    requires small { length bytes.now < 2 ^ 32 }
    requires place { place ≡ sections_place bytes.now }
    requires count { count ≡ section_count bytes.now }
    requires reach { place < 2 ^ 33 }
    ensures { Checked result (sections_demands bytes.now) tt }
{
    for i in 0..count {
        match check_section(bytes, place, i) {
            Ok(()) => {}
            Err(e) => return Err(e),
        }
    }
    Ok(())
}

/// A section's header and its raw bytes are within the file.
#[tactic(auto, using(il_base::proofs::lemmas::cli_format::Faults::faults), unfolding(il_base::specs::cli_format::Image::section_demands, il_base::specs::cli_format::Image::section_place))]
fn check_section(bytes: &[u8], place: usize, i: u16) -> Result<(), BadAt>
    requires small { length bytes.now < 2 ^ 32 }
    requires place { place ≡ sections_place bytes.now }
    requires reach { place < 2 ^ 33 }
    ensures { Checked result (section_demands bytes.now i) tt }
{
    need_bytes(bytes, place + 40 * i as usize, 40)?;
    let section = nth(bytes, place, i);
    need_bytes(bytes, section.raw as usize, section.raw_size as usize)?;
    Ok(())
}

/// The section with a number, from 0.
#[tactic(auto, unfolding(il_base::specs::cli_format::Image::nth_section, il_base::specs::cli_format::Image::section_place))]
fn nth(bytes: &[u8], place: usize, i: u16) -> Section
    requires place { place ≡ sections_place bytes.now }
    requires reach { place < 2 ^ 33 }
    ensures { result ≡ nth_section bytes.now i }
{
    section_in(bytes, place + 40 * i as usize)
}

/// The stretches of `count` sections from the one with a number, from 0. The sections of each half are put together before
/// the halves are, so the time is that of a sort.
#[tactic(auto, using(crate::proofs::Looking::looking))]
fn stretches_from(
    alloc: Global,
    bytes: &[u8],
    place: usize,
    first: u16,
    count: u16,
) -> Result<Vec<Stretch>, NoMemory>
    requires place { place ≡ sections_place bytes.now }
    requires reach { place < 2 ^ 33 }
    requires within { first + count < 2 ^ 16 }
    ensures { IfOk result (λ all. AreOf bytes.now count first all.items) }
{
    if count == 0 {
        return Ok(Vec::new(alloc));
    }
    if count == 1 {
        let all = stretches_of(alloc, nth(bytes, place, first))?;
        return Ok(all);
    }
    let half = count / 2;
    let upper = stretches_from(alloc, bytes, place, first, half)?;
    let lower = stretches_from(alloc, bytes, place, first + half, count - half)?;
    let all = overlay(alloc, &upper, &lower)?;
    Ok(all)
}

/// The section whose header is at a place.
#[tactic(auto, unfolding(il_base::specs::cli_format::Image::section_at))]
fn section_in(bytes: &[u8], at: usize) -> Section
    requires { at < 2 ^ 34 }
    ensures { result ≡ section_at bytes.now at }
{
    Section {
        size: u32_in(bytes, at + 8),
        rva: u32_in(bytes, at + 12),
        raw_size: u32_in(bytes, at + 16),
        raw: u32_in(bytes, at + 20),
    }
}

/// Whether an RVA lies in the section.
#[tactic(auto, unfolding(il_base::specs::cli_format::Image::covers))]
fn is_covered(section: &Section, rva: u32) -> bool
    ensures { result ≡ covers section.now rva }
{
    section.rva <= rva && u64::from(rva) < u64::from(section.rva) + u64::from(section.size)
}

/// The place of `len` bytes from an RVA in its section, where they lie in its raw bytes.
#[tactic(auto, unfolding(il_base::specs::cli_format::Image::place_in))]
fn place_within(section: &Section, rva: u32, len: u32) -> Option<u32>
    requires covered { section.now.rva ≤ rva }
    requires small { section.now.raw + section.now.raw_size < 2 ^ 32 }
    ensures value { result ≡ place_in rva len section.now }
    ensures within { IfSome result (λ at. at + len ≤ section.now.raw + section.now.raw_size) }
{
    let at = rva - section.rva;
    if section.raw_size < len || section.raw_size - len < at {
        return None;
    }
    Some(section.raw + at)
}

/// The bytes from an RVA to the end of its section's raw bytes.
#[tactic(auto, unfolding(il_base::specs::cli_format::Image::tail_in, il_base::specs::cli_format::Image::place_in))]
fn tail_within<'a>(bytes: &'a [u8], section: &Section, rva: u32) -> Option<&'a [u8]>
    requires covered { section.now.rva ≤ rva }
    requires small { section.now.raw + section.now.raw_size ≤ length bytes.now }
    ensures value { option_map (λ b. b.now) result ≡ tail_in bytes.now rva section.now }
    ensures within { IfSome result (λ b. length b.now < 2 ^ 32) }
{
    let at = rva - section.rva;
    if section.raw_size < at {
        return None;
    }
    Some(part(
        bytes,
        section.raw as usize + at as usize,
        (section.raw_size - at) as usize,
    ))
}
