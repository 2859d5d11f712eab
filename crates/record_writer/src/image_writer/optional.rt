//! The headers of an image (II.25.2).

ghost use Rattle.std.specs.Prelude.{◌≡◌, ◌+◌, ◌∷◌, [], ◌++◌, codes, OnOk};
ghost use Rattle.rules.specs.file_layout.Bytes.{half, word, zeros};
ghost use Rattle.rules.specs.file_layout.Image as layout;
ghost use Rattle.record_writer.specs.image_writer.Views.{parts, HasPlaces};

use crate::byte_writer::{put_half, put_word, put_zeros};
use crate::image_writer::rvas::{TEXT_RVA, imports_rva, jump_rva, reloc_rva, text_raw, text_size};
use crate::image_writer::sections::Parts;
use il_base::NoMemory;

/// The DOS header and stub (II.25.2.1).
#[rattlefmt::skip]
const DOS: [u8; 128] = [
    0x4d, 0x5a, 0x90, 0x00, 0x03, 0x00, 0x00, 0x00, 0x04, 0x00, 0x00, 0x00, 0xff, 0xff, 0x00, 0x00,
    0xb8, 0x00, 0x00, 0x00, 0x00, 0x00, 0x00, 0x00, 0x40, 0x00, 0x00, 0x00, 0x00, 0x00, 0x00, 0x00,
    0x00, 0x00, 0x00, 0x00, 0x00, 0x00, 0x00, 0x00, 0x00, 0x00, 0x00, 0x00, 0x00, 0x00, 0x00, 0x00,
    0x00, 0x00, 0x00, 0x00, 0x00, 0x00, 0x00, 0x00, 0x00, 0x00, 0x00, 0x00, 0x80, 0x00, 0x00, 0x00,
    0x0e, 0x1f, 0xba, 0x0e, 0x00, 0xb4, 0x09, 0xcd, 0x21, 0xb8, 0x01, 0x4c, 0xcd, 0x21, b'T', b'h',
    b'i', b's', b' ', b'p', b'r', b'o', b'g', b'r', b'a', b'm', b' ', b'c', b'a', b'n', b'n', b'o',
    b't', b' ', b'b', b'e', b' ', b'r', b'u', b'n', b' ', b'i', b'n', b' ', b'D', b'O', b'S', b' ',
    b'm', b'o', b'd', b'e', b'.', 0x0d, 0x0d, 0x0a, 0x24, 0x00, 0x00, 0x00, 0x00, 0x00, 0x00, 0x00,
];

/// The PE signature and the COFF header (II.25.2.2): i386, two sections, an executable of 32 bits.
const COFF: [u8; 24] = [
    b'P', b'E', 0, 0, 0x4c, 0x01, 2, 0, 0, 0, 0, 0, 0, 0, 0, 0, 0, 0, 0, 0, 0xe0, 0, 0x02, 0x01,
];

/// The data directories after that of relocations: import addresses and the CLI header.
const LAST_DIRECTORIES: [u8; 80] = [
    0, 0, 0, 0, 0, 0, 0, 0, 0, 0, 0, 0, 0, 0, 0, 0, 0, 0, 0, 0, 0, 0, 0, 0, 0, 0, 0, 0, 0, 0, 0, 0,
    0, 0, 0, 0, 0, 0, 0, 0, 0, 0, 0, 0, 0, 0, 0, 0, 0, 0x20, 0, 0, 8, 0, 0, 0, 0, 0, 0, 0, 0, 0, 0,
    0, 0x08, 0x20, 0, 0, 72, 0, 0, 0, 0, 0, 0, 0, 0, 0, 0, 0,
];

/// The standard fields of the optional header (II.25.2.3.1).
fn put_standard_fields(out: &mut Vec<u8>, p: &Parts<'_>) -> Result<(), NoMemory>
    requires { HasPlaces p.now }
    ensures { OnOk result (out.new.items ≡ out.old.items
        ++ (half 0x10b ++ half 0x30 ++ word (layout.text_raw (parts p.now)) ++ word 0x200 ++ word 0
        ++ word (layout.jump_rva (parts p.now)) ++ word 0x2000 ++ word (layout.reloc_rva (parts p.now)))) }
{
    out.extend_from_slice(&[0x0b, 0x01, 0x30, 0])?;
    put_word(out, text_raw(p))?;
    out.extend_from_slice(&[0, 0x02, 0, 0, 0, 0, 0, 0])?;
    put_word(out, jump_rva(p))?;
    out.extend_from_slice(&[0, 0x20, 0, 0])?;
    put_word(out, reloc_rva(p))
}

/// ImageBase, the alignments and the versions (II.25.2.3.2).
fn put_base_and_versions(out: &mut Vec<u8>) -> Result<(), NoMemory>
    ensures { OnOk result (out.new.items ≡ out.old.items
        ++ (word 0x400000 ++ word 0x2000 ++ word 0x200 ++ half 4 ++ half 0 ++ half 0 ++ half 0 ++ half 4 ++ half 0)) }
{
    out.extend_from_slice(&[
        0x00, 0x00, 0x40, 0x00, 0x00, 0x20, 0x00, 0x00, 0x00, 0x02, 0x00, 0x00, 4, 0, 0, 0, 0, 0,
        0, 0, 4, 0, 0, 0,
    ])?;
    Ok(())
}

/// The sizes, the subsystem and the flags (II.25.2.3.2).
fn put_windows_fields(out: &mut Vec<u8>, p: &Parts<'_>) -> Result<(), NoMemory>
    requires { HasPlaces p.now }
    ensures { OnOk result (out.new.items ≡ out.old.items
        ++ (word 0 ++ word (layout.reloc_rva (parts p.now) + 0x2000) ++ word 0x200 ++ word 0 ++ half p.now.subsystem ++ half 0x8540
        ++ word 0x100000 ++ word 0x1000 ++ word 0x100000 ++ word 0x1000 ++ word 0 ++ word 16)) }
{
    put_word(out, 0)?;
    put_word(out, reloc_rva(p) + 0x2000)?;
    out.extend_from_slice(&[0, 0x02, 0, 0, 0, 0, 0, 0])?;
    put_half(out, u64::from(p.subsystem))?;
    out.extend_from_slice(&[
        0x40, 0x85, 0x00, 0x00, 0x10, 0x00, 0x00, 0x10, 0x00, 0x00, 0x00, 0x00, 0x10, 0x00, 0x00,
        0x10, 0x00, 0x00, 0, 0, 0, 0, 16, 0, 0, 0,
    ])?;
    Ok(())
}

/// The fields of the optional header.
#[tactic(auto, unfolding(rules::specs::file_layout::Image::optional_bytes))]
fn put_optional(out: &mut Vec<u8>, p: &Parts<'_>) -> Result<(), NoMemory>
    requires { HasPlaces p.now }
    ensures { OnOk result (out.new.items ≡ out.old.items ++ layout.optional_bytes (parts p.now)) }
{
    put_standard_fields(out, p)?;
    put_base_and_versions(out)?;
    put_windows_fields(out, p)
}

/// A data directory.
fn put_directory(out: &mut Vec<u8>, rva: u64, size: u64) -> Result<(), NoMemory>
    ensures { OnOk result (out.new.items ≡ out.old.items ++ layout.directory rva size) }
{
    put_word(out, rva)?;
    put_word(out, size)
}

/// The data directories up to that of relocations.
fn put_first_directories(out: &mut Vec<u8>, p: &Parts<'_>) -> Result<(), NoMemory>
    requires { HasPlaces p.now }
    ensures { OnOk result (out.new.items ≡ out.old.items
        ++ (zeros 8 ++ layout.directory (layout.imports_rva (parts p.now)) 0x4a ++ zeros 24 ++ layout.directory (layout.reloc_rva (parts p.now)) 12)) }
{
    put_zeros(out, 8)?;
    put_directory(out, imports_rva(p), 0x4a)?;
    put_zeros(out, 24)?;
    put_directory(out, reloc_rva(p), 12)
}

/// The data directories (II.25.2.3.3).
#[tactic(auto, unfolding(rules::specs::file_layout::Image::directories_bytes))]
fn put_directories(out: &mut Vec<u8>, p: &Parts<'_>) -> Result<(), NoMemory>
    requires { HasPlaces p.now }
    ensures { OnOk result (out.new.items ≡ out.old.items ++ layout.directories_bytes (parts p.now)) }
{
    put_first_directories(out, p)?;
    out.extend_from_slice(&LAST_DIRECTORIES)?;
    Ok(())
}

/// The fields of a section header (II.25.3).
#[derive(Clone, Copy)]
struct SectionHeader {
    name: [u8; 8],
    size: u64,
    rva: u64,
    raw_size: u64,
    raw: u64,
    flags: u64,
}

/// A section header.
fn put_section_header(out: &mut Vec<u8>, h: SectionHeader) -> Result<(), NoMemory>
    ensures { OnOk result (out.new.items ≡ out.old.items ++ layout.section_header h.name h.size h.rva h.raw_size h.raw h.flags) }
{
    out.extend_from_slice(&h.name)?;
    put_word(out, h.size)?;
    put_word(out, h.rva)?;
    put_word(out, h.raw_size)?;
    put_word(out, h.raw)?;
    put_zeros(out, 12)?;
    put_word(out, h.flags)
}

/// The header of `.text`.
fn put_text_header(out: &mut Vec<u8>, p: &Parts<'_>) -> Result<(), NoMemory>
    requires { HasPlaces p.now }
    ensures { OnOk result (out.new.items ≡ out.old.items
        ++ layout.section_header (codes ".text" ++ zeros 3) (layout.text_size (parts p.now)) 0x2000 (layout.text_raw (parts p.now)) 0x200 0x60000020) }
{
    put_section_header(
        out,
        SectionHeader {
            name: *b".text\0\0\0",
            size: text_size(p),
            rva: TEXT_RVA,
            raw_size: text_raw(p),
            raw: 0x200,
            flags: 0x6000_0020,
        },
    )
}

/// The header of `.reloc`.
fn put_reloc_header(out: &mut Vec<u8>, p: &Parts<'_>) -> Result<(), NoMemory>
    requires { HasPlaces p.now }
    ensures { OnOk result (out.new.items ≡ out.old.items
        ++ layout.section_header (codes ".reloc" ++ zeros 2) 12 (layout.reloc_rva (parts p.now)) 0x200 (0x200 + layout.text_raw (parts p.now)) 0x42000040) }
{
    put_section_header(
        out,
        SectionHeader {
            name: *b".reloc\0\0",
            size: 12,
            rva: reloc_rva(p),
            raw_size: 0x200,
            raw: 0x200 + text_raw(p),
            flags: 0x4200_0040,
        },
    )
}

/// The headers, up to the first section.
#[tactic(auto, unfolding(rules::specs::file_layout::Image::dos_bytes, rules::specs::file_layout::Image::coff_bytes, rules::specs::file_layout::Image::section_headers, rules::specs::file_layout::Image::headers_bytes))]
pub fn put_headers(out: &mut Vec<u8>, p: &Parts<'_>) -> Result<(), NoMemory>
    requires { HasPlaces p.now }
    ensures { OnOk result (out.new.items ≡ out.old.items ++ layout.headers_bytes (parts p.now)) }
{
    out.extend_from_slice(&DOS)?;
    out.extend_from_slice(&COFF)?;
    put_optional(out, p)?;
    put_directories(out, p)?;
    put_text_header(out, p)?;
    put_reloc_header(out, p)?;
    put_zeros(out, 56)
}
