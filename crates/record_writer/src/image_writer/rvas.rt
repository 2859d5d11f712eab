//! Where the parts of an image stand in memory (II.25).

ghost use Rattle.std.specs.Prelude.{◌≡◌, ◌+◌, ◌<◌, ◌≤◌, ◌^◌, length};
ghost use Rattle.rules.specs.file_layout.Image as layout;
ghost use Rattle.record_writer.specs.image_writer.Views.{parts, HasPlaces};

use crate::byte_writer::next_multiple;
use crate::image_writer::sections::Parts;

/// Where `.text` stands, with the import addresses at its front.
pub const TEXT_RVA: u64 = 0x2000;

/// Where method bodies stand, after the import addresses and the CLI header.
pub const CODE_RVA: u64 = 0x2050;

pub fn metadata_rva(p: &Parts<'_>) -> u64
    requires { HasPlaces p.now }
    ensures value { result ≡ layout.metadata_rva (parts p.now) }
    ensures low { result < 2 ^ 62 + 16384 }
{
    CODE_RVA + p.code.len() as u64
}

pub fn imports_rva(p: &Parts<'_>) -> u64
    requires { HasPlaces p.now }
    ensures value { result ≡ layout.imports_rva (parts p.now) }
    ensures low { result < 2 ^ 62 + 16384 }
{
    metadata_rva(p) + p.metadata.len() as u64
}

/// The import lookup table, after the directory of 40 bytes.
pub fn lookup_rva(p: &Parts<'_>) -> u64
    requires { HasPlaces p.now }
    ensures value { result ≡ layout.lookup_rva (parts p.now) }
{
    imports_rva(p) + 40
}

/// The hint and name of `_CorExeMain`.
pub fn hint_rva(p: &Parts<'_>) -> u64
    requires { HasPlaces p.now }
    ensures value { result ≡ layout.hint_rva (parts p.now) }
{
    imports_rva(p) + 48
}

/// The name `mscoree.dll`.
pub fn library_rva(p: &Parts<'_>) -> u64
    requires { HasPlaces p.now }
    ensures value { result ≡ layout.library_rva (parts p.now) }
{
    imports_rva(p) + 62
}

pub fn names_end(p: &Parts<'_>) -> u64
    requires { HasPlaces p.now }
    ensures value { result ≡ layout.names_end (parts p.now) }
    ensures most { 0x2000 + length p.now.metadata.now ≤ result }
    ensures low { result < 2 ^ 62 + 16458 }
{
    imports_rva(p) + 74
}

/// The entry point: its first byte stands 2 before a multiple of 4.
pub fn jump_rva(p: &Parts<'_>) -> u64
    requires { HasPlaces p.now }
    ensures value { result ≡ layout.jump_rva (parts p.now) }
    ensures most { 0x2000 + length p.now.metadata.now ≤ result }
    ensures least { layout.names_end (parts p.now) ≤ result }
    ensures near { result < layout.names_end (parts p.now) + 4 }
    ensures low { result < 2 ^ 62 + 16462 }
{
    next_multiple(4, names_end(p) + 2) - 2
}

/// The address that the jump has, which a relocation names.
pub fn fixup_rva(p: &Parts<'_>) -> u64
    requires { HasPlaces p.now }
    ensures value { result ≡ layout.fixup_rva (parts p.now) }
    ensures high { 0x2000 + length p.now.metadata.now ≤ result }
    ensures low { result < 2 ^ 62 + 16464 }
{
    jump_rva(p) + 2
}

/// How many bytes `.text` has.
pub fn text_size(p: &Parts<'_>) -> u64
    requires { HasPlaces p.now }
    ensures value { result ≡ layout.text_size (parts p.now) }
    ensures most { length p.now.metadata.now ≤ result }
    ensures low { result < 2 ^ 62 + 16468 }
{
    fixup_rva(p) + 4 - TEXT_RVA
}

/// How many bytes `.text` has in the file.
pub fn text_raw(p: &Parts<'_>) -> u64
    requires { HasPlaces p.now }
    ensures value { result ≡ layout.text_raw (parts p.now) }
    ensures most { length p.now.metadata.now ≤ result }
    ensures low { result < 2 ^ 62 + 32768 }
{
    next_multiple(0x200, text_size(p))
}

pub fn reloc_rva(p: &Parts<'_>) -> u64
    requires { HasPlaces p.now }
    ensures value { result ≡ layout.reloc_rva (parts p.now) }
    ensures low { result < 2 ^ 62 + 65536 }
{
    next_multiple(0x2000, TEXT_RVA + text_size(p))
}

/// How many bytes the image has.
pub fn image_length(p: &Parts<'_>) -> u64
    requires { HasPlaces p.now }
    ensures value { result ≡ layout.image_length (parts p.now) }
    ensures most { length p.now.metadata.now ≤ result }
{
    0x200 + text_raw(p) + 0x200
}
