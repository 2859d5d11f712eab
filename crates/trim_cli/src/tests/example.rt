//! The example, byte by byte, and copies of it that differ in a few bytes.

use std::alloc::{AllocError, Global};

/// Puts a part at a place, after zeros.
fn put(bytes: &mut Vec<u8>, at: usize, part: &[u8]) -> Result<(), AllocError> {
    for _ in bytes.len()..at {
        bytes.push(0)?;
    }
    bytes.extend_from_slice(part)
}

/// The DOS, PE and optional headers.
fn headers(bytes: &mut Vec<u8>) -> Result<(), AllocError> {
    put(bytes, 0x0, b"MZ\x90\0\x03\0\0\0\x04\0\0\0\xff\xff\0\0\xb8")?;
    put(bytes, 0x18, b"@")?;
    put(
        bytes,
        0x3c,
        b"\x80\0\0\0\x0e\x1f\xba\x0e\0\xb4\x09\xcd!\xb8\x01L\xcd!This program cannot be run in DOS mode",
    )?;
    put(bytes, 0x74, b".\x0d\x0d\x0a$")?;
    put(bytes, 0x80, b"PE\0\0L\x01\x02")?;
    put(bytes, 0x94, b"\xe0\0\x02\x01\x0b\x010\0\0\x04\0\0\0\x02")?;
    put(
        bytes,
        0xa8,
        b"Z\x22\0\0\0 \0\0\0@\0\0\0\0@\0\0 \0\0\0\x02\0\0\x04",
    )?;
    put(bytes, 0xc8, b"\x04")?;
    put(bytes, 0xd1, b"`\0\0\0\x02")?;
    put(
        bytes,
        0xdc,
        b"\x03\0@\x85\0\0\x10\0\0\x10\0\0\0\0\x10\0\0\x10",
    )?;
    put(bytes, 0xf4, b"\x10")?;
    put(bytes, 0x100, b"\x10\x22\0\0J")?;
    put(bytes, 0x121, b"@\0\0\x0c")?;
    put(bytes, 0x159, b" \0\0\x08")?;
    put(bytes, 0x168, b"\x08 \0\0H")?;
    Ok(())
}

/// The section headers, the CLI header, the body and the metadata root.
fn sections_and_root(bytes: &mut Vec<u8>) -> Result<(), AllocError> {
    put(bytes, 0x178, b".text\0\0\0`\x02\0\0\0 \0\0\0\x04\0\0\0\x02")?;
    put(
        bytes,
        0x19c,
        b" \0\0`.reloc\0\0\x0c\0\0\0\0@\0\0\0\x02\0\0\0\x06",
    )?;
    put(bytes, 0x1c4, b"@\0\0B")?;
    put(bytes, 0x200, b"@\x22")?;
    put(
        bytes,
        0x208,
        b"H\0\0\0\x02\0\x05\0\x5c \0\0\xb4\x01\0\0\x01\0\0\0\x01\0\0\x06",
    )?;
    put(
        bytes,
        0x250,
        b".r\x01\0\0p(\x01\0\0\x0a*BSJB\x01\0\x01\0\0\0\0\0\x0c\0\0\0v4.0.30319\0\0\0\0\x05\0l\0\0\0\xb8\0\0\0#~",
    )?;
    put(
        bytes,
        0x288,
        b"$\x01\0\0d\0\0\0#Strings\0\0\0\0\x88\x01\0\0\x08\0\0\0#US\0\x90\x01\0\0\x10\0\0\0#GUID\0\0\0\xa0\x01\0\0\x14",
    )?;
    put(bytes, 0x2c0, b"#Blob")?;
    Ok(())
}

/// The stream of tables, with these rows of methods.
fn rows(bytes: &mut Vec<u8>, count: u8, methods: &[u8]) -> Result<(), AllocError> {
    bytes.extend_from_slice(b"\0\0\0\0\x02\0\0\x01G\x04\0\0\x09\0\0\0\0\xfa\x013\0\x16\0\0")?;
    bytes.extend_from_slice(b"\x01\0\0\0\x02\0\0\0\x02\0\0\0")?;
    bytes.push(count)?;
    bytes.extend_from_slice(b"\0\0\0\x01\0\0\0\x01\0\0\0\x02\0\0\0\0\0\x01\0\x01\0\0\0\0\0")?;
    bytes.extend_from_slice(
        b"\x06\0\x09\0\x10\0\x0a\0\x17\0\x10\0\0\0\0\0\x1f\0\0\0\0\0\x01\0\x01\0",
    )?;
    bytes.extend_from_slice(b"\x80\x01\x10\0(\0\0\0\x05\0\x01\0\x01\0")?;
    bytes.extend_from_slice(methods)?;
    bytes.extend_from_slice(b"\x11\05\0\x05\0\x04\x80\0\0\x01\0\0\0\0\0\0\0\0\0\0\0\0\0?\0\0\0")?;
    bytes.extend_from_slice(b"\x08\0\0\0\0\0\0\0\0\0\0\0\x0a\0C\0\0\0\0\0")?;
    bytes.extend_from_slice(b"\x08\0\0\0\0\0\0\0\0\0\0\0\x0a\0R\0\0\0\0\0")
}

/// `Main`: its body is at RVA 2050, its name at 30.
const MAIN: &[u8] = b"P \0\0\0\0\x91\x000\0\x01\0\x01\0";

/// The heaps and the import table.
fn heaps(bytes: &mut Vec<u8>) -> Result<(), AllocError> {
    put(
        bytes,
        0x381,
        b"App.exe\0Object\0System\0Console\0<Module>\0Program\0Main\0Writ",
    )?;
    put(
        bytes,
        0x3b9,
        b"eLine\0App\0System.Runtime\0System.Console\0\0\0\0\0\x05H\0i\0\0\0\x11\x11\x11\x11\x11",
    )?;
    put(
        bytes,
        0x3f1,
        b"\x11\x11\x11\x11\x11\x11\x11\x11\x11\x11\x11\0\x03\0\0\x01\x04\0\x01\x01\x0e\x08\xb0?_\x7f\x11\xd5\x0a:\x008\x22",
    )?;
    put(bytes, 0x41c, b"N\x22\0\0\0 ")?;
    put(bytes, 0x438, b"@\x22")?;
    put(bytes, 0x442, b"_CorExeMain\0mscoree.dll\0\xff%\0 @")
}

/// The relocations.
fn relocations(bytes: &mut Vec<u8>) -> Result<(), AllocError> {
    put(bytes, 0x601, b" \0\0\x0c\0\0\0\x5c2")?;
    put(bytes, 0x800, b"")
}

/// A file that prints `Hi`, laid out as the .NET SDK does.
pub(super) fn hello(alloc: Global) -> Result<Vec<u8>, AllocError> {
    let mut bytes = Vec::new(alloc);
    headers(&mut bytes)?;
    sections_and_root(&mut bytes)?;
    put(&mut bytes, 0x2c8, b"")?;
    rows(&mut bytes, 1, MAIN)?;
    heaps(&mut bytes)?;
    relocations(&mut bytes)?;
    Ok(bytes)
}

/// Writes a part over what is at a place.
fn change(bytes: &mut Vec<u8>, at: usize, part: &[u8]) {
    for (index, value) in part.iter().enumerate() {
        if let Some(byte) = bytes.get_mut(at.saturating_add(index)) {
            *byte = *value;
        }
    }
}

/// The same with another part at a place.
pub(super) fn edited(alloc: Global, at: usize, part: &[u8]) -> Result<Vec<u8>, AllocError> {
    let mut bytes = hello(alloc)?;
    change(&mut bytes, at, part);
    Ok(bytes)
}

/// The same by another name of the assembly, `Lib`.
pub(super) fn library(alloc: Global) -> Result<Vec<u8>, AllocError> {
    edited(alloc, 0x3bf, b"Lib")
}

/// Its first bytes.
pub(super) fn cut(alloc: Global, length: usize) -> Result<Vec<u8>, AllocError> {
    let mut bytes = hello(alloc)?;
    bytes.truncate(length);
    Ok(bytes)
}

/// The same with a second method, which nothing calls. Its tables are after everything else in `.text`, which is longer for it.
pub(super) fn uncalled(alloc: Global) -> Result<Vec<u8>, AllocError> {
    let mut bytes = Vec::new(alloc);
    headers(&mut bytes)?;
    sections_and_root(&mut bytes)?;
    heaps(&mut bytes)?;
    put(&mut bytes, 0x480, b"")?;
    rows(
        &mut bytes,
        2,
        b"P \0\0\0\0\x91\x000\0\x01\0\x01\0P \0\0\0\0\x91\x001\0\x01\0\x01\0",
    )?;
    relocations(&mut bytes)?;
    change(&mut bytes, 0x180, b"\0\x04");
    change(&mut bytes, 0x214, b"\xec\x02");
    change(&mut bytes, 0x27c, b"\x24\x02\0\0\xc8");
    Ok(bytes)
}

/// The same with the body `br.s` to itself.
pub(super) fn endless(alloc: Global) -> Result<Vec<u8>, AllocError> {
    edited(alloc, 592, b"\x0a\x2b\xfe")
}
