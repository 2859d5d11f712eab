ghost use Rattle.std.specs.Prelude.{◌≡◌, ◌+◌, ◌<◌, ◌^◌, ◌==◌, ◌||◌, ◌≤◌, length, None, IfOk};
ghost use Rattle.il_base.specs.cli_format.Demand.{Checked, first_fault};
ghost use Rattle.pe_image.specs.Headers.{headers_of};
ghost use Rattle.il_base.specs.cli_format.Image.{signature_place, signature_demands, optional_place, magic_demands, directory_place, directory_demands, directory_count_place, is_wide, header_demands, sections_demands, subsystem_of, sections_place, section_count};

use crate::sections::check_sections;
use il_base::BadAt;
use il_base::cli_format::{NO_CLI, NOT_PE, need, need_bytes, u16_in, u32_in};

/// The magic of an optional header of PE32 (II.25.2.3.1).
const PE32: u16 = 0x10b;

/// The magic of an optional header of PE32+.
const PE32_PLUS: u16 = 0x20b;

/// The place of the PE signature, which the DOS header gives (II.25.2.1).
#[tactic(auto, using(il_base::proofs::lemmas::cli_format::Faults::faults), unfolding(il_base::specs::cli_format::Image::signature_place, il_base::specs::cli_format::Image::signature_demands))]
pub fn find_signature(bytes: &[u8]) -> Result<u32, BadAt>
    requires { length bytes.now < 2 ^ 32 }
    ensures { Checked result (signature_demands bytes.now) (signature_place bytes.now) }
{
    need(u16_in(bytes, 0) == 0x5a4d, 0, NOT_PE)?;
    need_bytes(bytes, 0x3c, 4)?;
    let place = u32_in(bytes, 0x3c);
    need_bytes(bytes, place as usize, 4)?;
    need(
        u32_in(bytes, place as usize) == 0x4550,
        place as usize,
        NOT_PE,
    )?;
    Ok(place)
}

/// The place of the optional header, after the signature and the COFF header (II.25.2.3).
#[tactic(auto, using(il_base::proofs::lemmas::cli_format::Faults::faults), unfolding(il_base::specs::cli_format::Image::optional_place, il_base::specs::cli_format::Image::magic_demands, il_base::specs::cli_format::Image::is_wide))]
pub fn find_optional(bytes: &[u8], signature: u32) -> Result<usize, BadAt>
    requires small { length bytes.now < 2 ^ 32 }
    requires place { signature ≡ signature_place bytes.now }
    ensures checked { Checked result (magic_demands bytes.now) (optional_place bytes.now) }
    ensures within { IfOk result (λ at. at + 2 ≤ length bytes.now) }
{
    let place = signature as usize + 24;
    need_bytes(bytes, place, 2)?;
    need(is_magic(u16_in(bytes, place)), place, NOT_PE)?;
    Ok(place)
}

fn is_magic(magic: u16) -> bool
    ensures { result ≡ (magic == 0x20b || magic == 0x10b) }
{
    magic == PE32_PLUS || magic == PE32
}

/// The place of directory 14, the CLI header's (II.25.2.3.3).
#[tactic(auto, using(il_base::proofs::lemmas::cli_format::Faults::faults), unfolding(il_base::specs::cli_format::Image::directory_place, il_base::specs::cli_format::Image::directory_demands))]
pub fn find_directory(bytes: &[u8], optional: usize) -> Result<usize, BadAt>
    requires small { length bytes.now < 2 ^ 32 }
    requires place { optional ≡ optional_place bytes.now }
    requires reach { optional < 2 ^ 33 }
    ensures checked { Checked result (directory_demands bytes.now) (directory_place bytes.now) }
    ensures within { IfOk result (λ at. at + 4 ≤ length bytes.now) }
{
    let count = count_place(bytes, optional);
    need_bytes(bytes, count, 4)?;
    need(15 <= u32_in(bytes, count), count, NO_CLI)?;
    let place = count + 116;
    need_bytes(bytes, place, 4)?;
    need(u32_in(bytes, place) != 0, place, NO_CLI)?;
    Ok(place)
}

/// The place of the number of directories, which lies 16 bytes further in PE32+.
#[tactic(auto, unfolding(il_base::specs::cli_format::Image::directory_count_place, il_base::specs::cli_format::Image::is_wide))]
fn count_place(bytes: &[u8], optional: usize) -> usize
    requires place { optional ≡ optional_place bytes.now }
    requires reach { optional < 2 ^ 33 }
    ensures value { result ≡ directory_count_place bytes.now }
    ensures reach { result < 2 ^ 34 }
{
    if u16_in(bytes, optional) == PE32_PLUS {
        optional + 108
    } else {
        optional + 92
    }
}

/// What the headers of a file give.
#[derive(Clone, Copy, Debug)]
pub struct Headers {
    /// The place of the first section header.
    pub sections: usize,
    /// The number of sections.
    pub count: u16,
    /// The place of directory 14.
    pub directory: usize,
    /// The subsystem (II.25.2.3.2).
    pub subsystem: u16,
}

/// The headers of a file.
#[tactic(auto, using(il_base::proofs::lemmas::cli_format::Faults::faults), unfolding(il_base::specs::cli_format::Image::header_demands))]
pub fn read_headers(bytes: &[u8]) -> Result<Headers, BadAt>
    requires { length bytes.now < 2 ^ 32 }
    ensures checked { Checked result (header_demands bytes.now) (headers_of bytes.now) }
    ensures within { IfOk result (λ h. h.directory + 4 ≤ length bytes.now) }
    ensures reach { IfOk result (λ h. h.sections < 2 ^ 33) }
    ensures sections { IfOk result (λ h. first_fault (sections_demands bytes.now) ≡ None) }
{
    let signature = find_signature(bytes)?;
    let optional = find_optional(bytes, signature)?;
    let directory = find_directory(bytes, optional)?;
    let sections = sections_place(bytes, signature, optional);
    let count = section_count(bytes, signature);
    check_sections(bytes, sections, count)?;
    let subsystem = subsystem_in(bytes, optional);
    Ok(Headers {
        sections,
        count,
        directory,
        subsystem,
    })
}

/// The place of the first section header, after the optional header.
#[tactic(auto, unfolding(il_base::specs::cli_format::Image::sections_place))]
fn sections_place(bytes: &[u8], signature: u32, optional: usize) -> usize
    requires signature { signature ≡ signature_place bytes.now }
    requires optional { optional ≡ optional_place bytes.now }
    requires reach { optional < 2 ^ 32 }
    ensures value { result ≡ sections_place bytes.now }
    ensures reach { result < 2 ^ 33 }
{
    let size = u16_in(bytes, signature as usize + 20);
    optional + size as usize
}

/// The number of sections.
#[tactic(auto, unfolding(il_base::specs::cli_format::Image::section_count))]
fn section_count(bytes: &[u8], signature: u32) -> u16
    requires { signature ≡ signature_place bytes.now }
    ensures { result ≡ section_count bytes.now }
{
    u16_in(bytes, signature as usize + 6)
}

#[tactic(auto, unfolding(il_base::specs::cli_format::Image::subsystem_of))]
fn subsystem_in(bytes: &[u8], optional: usize) -> u16
    requires optional { optional ≡ optional_place bytes.now }
    requires reach { optional < 2 ^ 32 }
    ensures { result ≡ subsystem_of bytes.now }
{
    u16_in(bytes, optional + 68)
}
