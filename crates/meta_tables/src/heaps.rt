ghost use Rattle.std.specs.Prelude.{◌≡◌, ◌+◌, ◌<◌, ◌≤◌, ◌^◌, length, drop, Some, None, IfSome};
ghost use Rattle.std.specs.Option.{option_map};
ghost use Rattle.std.specs.Str.{is_utf8};
ghost use Rattle.il_base.specs.cli_format.Heaps.{good_text, text_at, string_of, counted_at, user_string_of, blob_of, guid_of};

use crate::refuse::{find_zero, part};
use il_base::compressed_number;
use std::str::from_utf8;

/// The text at a place of `#Strings`, up to the zero after it (II.24.2.3), where it is UTF-8.
#[tactic(auto, unfolding(il_base::specs::cli_format::Heaps::string_of))]
pub fn text_item(heap: &[u8], at: usize) -> Option<&[u8]>
    ensures { option_map (λ b. b.now) result ≡ string_of heap.now at }
{
    if at == 0 && heap.is_empty() {
        return Some(heap);
    }
    first_text(behind(heap, at))
}

/// The text at the front, up to the first zero, where it is UTF-8.
#[tactic(auto, unfolding(il_base::specs::cli_format::Heaps::text_at, il_base::specs::cli_format::Heaps::good_text))]
fn first_text(bytes: &[u8]) -> Option<&[u8]>
    ensures { option_map (λ b. b.now) result ≡ text_at bytes.now }
{
    match find_zero(bytes) {
        None => None,
        Some(n) => {
            let text = &bytes[..n];
            if is_text(text) { Some(text) } else { None }
        }
    }
}

/// Whether bytes are UTF-8.
#[tactic(auto, using(crate::proofs::Utf8::utf8))]
pub fn is_text(bytes: &[u8]) -> bool
    ensures { result ≡ is_utf8 bytes.now }
{
    match from_utf8(bytes) {
        Ok(_) => true,
        Err(_) => false,
    }
}

/// The bytes from a place on; there are none past the end.
#[tactic(auto, using(crate::proofs::Lists::drop_end))]
fn behind(bytes: &[u8], at: usize) -> &[u8]
    ensures { result.now ≡ drop at bytes.now }
{
    if at < bytes.len() { &bytes[at..] } else { &[] }
}

/// The bytes at the front after their length (II.24.2.4).
#[tactic(auto, unfolding(il_base::specs::cli_format::Heaps::counted_at, il_base::specs::Bytes::bytes_at))]
fn first_counted(bytes: &[u8]) -> Option<&[u8]>
    ensures value { option_map (λ b. b.now) result ≡ counted_at bytes.now }
    ensures within { IfSome result (λ b. length b.now < 2 ^ 32) }
{
    match compressed_number(bytes) {
        None => None,
        Some((len, size)) => {
            if bytes.len() - size < len as usize {
                return None;
            }
            Some(part(bytes, size, len as usize))
        }
    }
}

/// The blob at a place of `#Blob` (II.24.2.4).
#[tactic(auto, unfolding(il_base::specs::cli_format::Heaps::blob_of))]
pub fn blob_item(heap: &[u8], at: usize) -> Option<&[u8]>
    ensures value { option_map (λ b. b.now) result ≡ blob_of heap.now at }
    ensures within { IfSome result (λ b. length b.now < 2 ^ 32) }
{
    if at == 0 && heap.is_empty() {
        return Some(heap);
    }
    first_counted(behind(heap, at))
}

/// The item at a place of `#US` (II.24.2.4), its last byte included.
#[tactic(auto, unfolding(il_base::specs::cli_format::Heaps::user_string_of))]
pub fn user_item(heap: &[u8], at: usize) -> Option<&[u8]>
    ensures { option_map (λ b. b.now) result ≡ user_string_of heap.now at }
{
    first_counted(behind(heap, at))
}

/// The GUID with a number, from 1 (II.24.2.5).
#[tactic(auto, unfolding(il_base::specs::cli_format::Heaps::guid_of))]
pub fn guid_item(heap: &[u8], number: usize) -> Option<&[u8]>
    ensures { option_map (λ b. b.now) result ≡ guid_of heap.now number }
{
    if number < 1 || heap.len() / 16 < number {
        return None;
    }
    Some(part(heap, 16 * (number - 1), 16))
}
