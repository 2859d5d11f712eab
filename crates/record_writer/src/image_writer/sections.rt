//! The image around code and metadata (II.25).

ghost use Rattle.std.specs.Prelude.{◌≡◌, ◌+◌, ◌-◌, ◌∷◌, [], ◌++◌, length, codes, IfOk, OnOk};
ghost use Rattle.rules.specs.file_layout.Bytes.{half, word, zeros, padded};
ghost use Rattle.rules.specs.file_layout.Image as layout;
ghost use Rattle.record_writer.specs.image_writer.Views.{parts, HasPlaces};

use crate::byte_writer::{pad, put_half, put_word, put_zeros};
use crate::image_writer::optional::put_headers;
use crate::image_writer::rvas::{
    TEXT_RVA, fixup_rva, hint_rva, jump_rva, library_rva, lookup_rva, metadata_rva, names_end,
};
use il_base::NoMemory;
use std::alloc::Global;

/// The parts that an image is made of.
#[derive(Drop)]
pub struct Parts<'a> {
    /// The flags of the CLI header (II.25.3.3.1).
    pub bits: u32,
    /// The entry point's token.
    pub entry: u32,
    /// The subsystem of the optional header (II.25.2.3.2).
    pub subsystem: u16,
    /// Method bodies, from RVA 2050 on.
    pub code: &'a [u8],
    pub metadata: &'a [u8],
}

/// The front of the CLI header, up to its flags.
fn put_cli_front(out: &mut Vec<u8>, p: &Parts<'_>) -> Result<(), NoMemory>
    requires { HasPlaces p.now }
    ensures { OnOk result (out.new.items ≡ out.old.items
        ++ (word 72 ++ half 2 ++ half 5 ++ word (layout.metadata_rva (parts p.now)) ++ word (length p.now.metadata.now))) }
{
    out.extend_from_slice(&[72, 0, 0, 0, 2, 0, 5, 0])?;
    put_word(out, metadata_rva(p))?;
    put_word(out, p.metadata.len() as u64)
}

/// The CLI header (II.25.3.3).
#[tactic(auto, unfolding(rules::specs::file_layout::Image::cli_header))]
fn put_cli_header(out: &mut Vec<u8>, p: &Parts<'_>) -> Result<(), NoMemory>
    requires { HasPlaces p.now }
    ensures { OnOk result (out.new.items ≡ out.old.items ++ layout.cli_header (parts p.now)) }
{
    put_cli_front(out, p)?;
    put_word(out, u64::from(p.bits))?;
    put_word(out, u64::from(p.entry))?;
    put_zeros(out, 48)
}

/// The import directory (II.25.3.1).
fn put_import_directory(out: &mut Vec<u8>, p: &Parts<'_>) -> Result<(), NoMemory>
    requires { HasPlaces p.now }
    ensures { OnOk result (out.new.items ≡ out.old.items
        ++ (word (layout.lookup_rva (parts p.now)) ++ word 0 ++ word 0 ++ word (layout.library_rva (parts p.now)) ++ word 0x2000 ++ zeros 20)) }
{
    put_word(out, lookup_rva(p))?;
    put_word(out, 0)?;
    put_word(out, 0)?;
    put_word(out, library_rva(p))?;
    put_word(out, TEXT_RVA)?;
    put_zeros(out, 20)
}

/// The names of the imports after the lookup table: a hint of 0 and `_CorExeMain`, and the library.
fn put_import_names(out: &mut Vec<u8>) -> Result<(), NoMemory>
    ensures { OnOk result (out.new.items ≡ out.old.items ++ (half 0 ++ (codes "_CorExeMain" ++ zeros 1) ++ (codes "mscoree.dll" ++ zeros 1))) }
{
    out.extend_from_slice(b"\0\0_CorExeMain\0mscoree.dll\0")?;
    Ok(())
}

/// The imports: `_CorExeMain` of `mscoree.dll` (II.25.3.1).
#[tactic(auto, unfolding(rules::specs::file_layout::Image::import_bytes))]
fn put_imports(out: &mut Vec<u8>, p: &Parts<'_>) -> Result<(), NoMemory>
    requires { HasPlaces p.now }
    ensures { OnOk result (out.new.items ≡ out.old.items ++ layout.import_bytes (parts p.now)) }
{
    put_import_directory(out, p)?;
    put_word(out, hint_rva(p))?;
    put_word(out, 0)?;
    put_import_names(out)
}

/// The jump through the import address, after zeros.
#[tactic(auto, unfolding(rules::specs::file_layout::Image::jump_bytes))]
fn put_jump(out: &mut Vec<u8>, p: &Parts<'_>) -> Result<(), NoMemory>
    requires { HasPlaces p.now }
    ensures { OnOk result (out.new.items ≡ out.old.items
        ++ (zeros (layout.jump_rva (parts p.now) - layout.names_end (parts p.now)) ++ layout.jump_bytes)) }
{
    put_zeros(out, (jump_rva(p) - names_end(p)) as usize)?;
    out.extend_from_slice(&[0xff, 0x25])?;
    put_word(out, 0x40_2000)
}

/// The section `.text`.
#[tactic(auto, unfolding(rules::specs::file_layout::Image::text_section))]
fn put_text(out: &mut Vec<u8>, p: &Parts<'_>) -> Result<(), NoMemory>
    requires { HasPlaces p.now }
    ensures { OnOk result (out.new.items ≡ out.old.items ++ layout.text_section (parts p.now)) }
{
    put_word(out, hint_rva(p))?;
    put_word(out, 0)?;
    put_cli_header(out, p)?;
    out.extend_from_slice(p.code)?;
    out.extend_from_slice(p.metadata)?;
    put_imports(out, p)?;
    put_jump(out, p)
}

/// The section `.reloc`: one block with one entry, for the jump (II.25.3.2).
#[tactic(auto, unfolding(rules::specs::file_layout::Image::reloc_section))]
fn put_reloc(out: &mut Vec<u8>, p: &Parts<'_>) -> Result<(), NoMemory>
    requires { HasPlaces p.now }
    ensures { OnOk result (out.new.items ≡ out.old.items ++ layout.reloc_section (parts p.now)) }
{
    let fixup = fixup_rva(p);
    put_word(out, fixup / 0x1000 * 0x1000)?;
    put_word(out, 12)?;
    put_half(out, 0x3000 + fixup % 0x1000)?;
    put_half(out, 0)
}

/// The section `.text` with its zeros.
fn text(alloc: Global, p: &Parts<'_>) -> Result<Vec<u8>, NoMemory>
    requires { HasPlaces p.now }
    ensures { IfOk result (λ v. v.items ≡ padded 0x200 (layout.text_section (parts p.now))) }
{
    let mut section = Vec::new(alloc);
    put_text(&mut section, p)?;
    pad(&mut section, 0x200)?;
    Ok(section)
}

/// The section `.reloc` with its zeros.
fn reloc(alloc: Global, p: &Parts<'_>) -> Result<Vec<u8>, NoMemory>
    requires { HasPlaces p.now }
    ensures { IfOk result (λ v. v.items ≡ padded 0x200 (layout.reloc_section (parts p.now))) }
{
    let mut section = Vec::new(alloc);
    put_reloc(&mut section, p)?;
    pad(&mut section, 0x200)?;
    Ok(section)
}

/// The image of some parts.
#[tactic(auto, unfolding(rules::specs::file_layout::Image::image_bytes))]
pub fn image(alloc: Global, p: &Parts<'_>) -> Result<Vec<u8>, NoMemory>
    requires { HasPlaces p.now }
    ensures { IfOk result (λ v. v.items ≡ layout.image_bytes (parts p.now)) }
{
    let mut out = Vec::new(alloc);
    put_headers(&mut out, p)?;
    out.extend_from_slice(&text(alloc, p)?)?;
    out.extend_from_slice(&reloc(alloc, p)?)?;
    Ok(out)
}
