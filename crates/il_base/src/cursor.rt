ghost use Rattle.std.specs.Prelude.{◌≡◌, ◌+◌, ◌≤◌, length, drop, IfSome, IfNone, OnSome};
ghost use Rattle.std.specs.Option.{option_map};
ghost use Rattle.il_base.specs.Bytes.{number_at, bytes_at, compressed_at, size_of, value_of};

use byteorder::{BigEndian, ByteOrder, LittleEndian};
use std::marker::Model;

/// Bytes that are read from the front. Contracts see the bytes that are left.
#[derive(Debug, Drop)]
pub struct Cursor<'a> {
    rest: &'a [u8],
}

impl<'a> Model for Cursor<'a> {
    ghost use Rattle.std.specs.Prelude.{List, ℕ};

    ghost Value = { List ℕ };

    ghost view = { λ c. c.rest.now };
}

impl<'a> Cursor<'a> {
    pub fn new(bytes: &'a [u8]) -> Cursor<'a>
        ensures { result ≡ bytes.now }
    {
        Cursor { rest: bytes }
    }

    /// The next byte. None where none is left, and then the cursor stays.
    pub fn u8(&mut self) -> Option<u8>
        ensures value { result ≡ number_at 1 self.old 0 }
        ensures read { IfSome result (λ _. self.new ≡ drop 1 self.old) }
        ensures stays { IfNone result (self.new ≡ self.old) }
    {
        let n = u8_at(self.rest, 0)?;
        self.rest = &self.rest[1..];
        Some(n)
    }

    /// The number in the next two bytes, the lowest first. None where fewer are left, and then the cursor stays.
    pub fn u16(&mut self) -> Option<u16>
        ensures value { result ≡ number_at 2 self.old 0 }
        ensures read { IfSome result (λ _. self.new ≡ drop 2 self.old) }
        ensures stays { IfNone result (self.new ≡ self.old) }
    {
        let n = u16_at(self.rest, 0)?;
        self.rest = &self.rest[2..];
        Some(n)
    }

    /// The number in the next four bytes, the lowest first. None where fewer are left, and then the cursor stays.
    pub fn u32(&mut self) -> Option<u32>
        ensures value { result ≡ number_at 4 self.old 0 }
        ensures read { IfSome result (λ _. self.new ≡ drop 4 self.old) }
        ensures stays { IfNone result (self.new ≡ self.old) }
    {
        let n = u32_at(self.rest, 0)?;
        self.rest = &self.rest[4..];
        Some(n)
    }

    /// The number in the next eight bytes, the lowest first. None where fewer are left, and then the cursor stays.
    pub fn u64(&mut self) -> Option<u64>
        ensures value { result ≡ number_at 8 self.old 0 }
        ensures read { IfSome result (λ _. self.new ≡ drop 8 self.old) }
        ensures stays { IfNone result (self.new ≡ self.old) }
    {
        let n = u64_at(self.rest, 0)?;
        self.rest = &self.rest[8..];
        Some(n)
    }

    /// The compressed number at the front (II.23.2), also in a longer form than it needs. None where too few bytes
    /// are left or its lead bits are 111, and then the cursor stays.
    pub fn compressed(&mut self) -> Option<u32>
        ensures value { result ≡ value_of (compressed_at self.old) }
        ensures read { IfSome result (λ _. self.new ≡ drop (size_of (compressed_at self.old)) self.old) }
        ensures stays { IfNone result (self.new ≡ self.old) }
    {
        let (n, size) = compressed_number(self.rest)?;
        self.rest = &self.rest[size..];
        Some(n)
    }

    /// The next `n` bytes. None where fewer are left, and then the cursor stays.
    #[tactic(auto, unfolding(crate::specs::Bytes::bytes_at))]
    pub fn take(&mut self, n: usize) -> Option<&'a [u8]>
        ensures value { option_map (λ b. b.now) result ≡ bytes_at self.old 0 n }
        ensures read { IfSome result (λ _. self.new ≡ drop n self.old) }
        ensures stays { IfNone result (self.new ≡ self.old) }
    {
        if self.rest.len() < n {
            return None;
        }
        let (front, rest) = self.rest.split_at(n);
        self.rest = rest;
        Some(front)
    }
}

/// The byte at `at`, or None where the bytes end before.
#[tactic(auto, unfolding(crate::specs::Bytes::number_at))]
pub fn u8_at(bytes: &[u8], at: usize) -> Option<u8>
    ensures value { result ≡ number_at 1 bytes.now at }
    ensures within { OnSome result (at + 1 ≤ length bytes.now) }
{
    bytes.get(at).copied()
}

/// The number in the two bytes from `at`, the lowest first, or None where the bytes end before.
#[tactic(auto, unfolding(crate::specs::Bytes::number_at))]
pub fn u16_at(bytes: &[u8], at: usize) -> Option<u16>
    ensures value { result ≡ number_at 2 bytes.now at }
    ensures within { OnSome result (at + 2 ≤ length bytes.now) }
{
    if bytes.len() < 2 || bytes.len() - 2 < at {
        return None;
    }
    Some(LittleEndian::read_u16(&bytes[at..]))
}

/// The number in the four bytes from `at`, the lowest first, or None where the bytes end before.
#[tactic(auto, unfolding(crate::specs::Bytes::number_at))]
pub fn u32_at(bytes: &[u8], at: usize) -> Option<u32>
    ensures value { result ≡ number_at 4 bytes.now at }
    ensures within { OnSome result (at + 4 ≤ length bytes.now) }
{
    if bytes.len() < 4 || bytes.len() - 4 < at {
        return None;
    }
    Some(LittleEndian::read_u32(&bytes[at..]))
}

/// The number in the eight bytes from `at`, the lowest first, or None where the bytes end before.
#[tactic(auto, unfolding(crate::specs::Bytes::number_at))]
pub fn u64_at(bytes: &[u8], at: usize) -> Option<u64>
    ensures value { result ≡ number_at 8 bytes.now at }
    ensures within { OnSome result (at + 8 ≤ length bytes.now) }
{
    if bytes.len() < 8 || bytes.len() - 8 < at {
        return None;
    }
    Some(LittleEndian::read_u64(&bytes[at..]))
}

/// The compressed number at the front (II.23.2), and how many bytes it takes.
#[tactic(auto, unfolding(crate::specs::Bytes::compressed_at))]
pub fn compressed_number(bytes: &[u8]) -> Option<(u32, usize)>
    ensures value { result ≡ compressed_at bytes.now }
    ensures within { IfSome result (λ x. x.1 ≤ length bytes.now) }
{
    let first = *bytes.first()?;
    if first < 0x80 {
        return Some((u32::from(first), 1));
    }
    if first < 0xc0 {
        if bytes.len() < 2 {
            return None;
        }
        return Some((u32::from(BigEndian::read_u16(bytes)) - 0x8000, 2));
    }
    if first < 0xe0 {
        if bytes.len() < 4 {
            return None;
        }
        return Some((BigEndian::read_u32(bytes) - 0xc000_0000, 4));
    }
    None
}
