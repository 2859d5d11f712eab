ghost use Rattle.std.specs.Prelude.{◌≡◌, ◌≤◌, ◌<◌, ◌+◌, ◌^◌, false, length, drop, IfOk, IfErr, IfSome};
ghost use Rattle.std.specs.Option.{option_map};
ghost use Rattle.descriptor_file.specs.Reading.{token_at, token_step, read_from, mark_length, declaration, descriptor_of, Answers, IsWithin};
ghost use Rattle.descriptor_file.specs.Grammar.{first_state};

use crate::error::DescriptorError;
use crate::lexer::{content_token, is_space, place_of, tag_token};
use crate::root::Root;
use crate::rules::is_done;
use crate::state::{Spot, State};
use crate::token::Piece;
use crate::values::{after, is_text};
use il_base::{NoMemory, Seq};
use std::alloc::Global;

/// The token at the front.
fn token_at(
    alloc: Global,
    spot: Spot,
    spaced: bool,
    bytes: &[u8],
) -> Result<Option<Piece>, NoMemory>
    ensures value { IfOk result (λ p. p ≡ token_at spot spaced bytes.now) }
    ensures within { IfOk result (λ p. IfSome p (λ p. (0 < p.size) × (p.size ≤ length bytes.now))) }
{
    match spot {
        Spot::Content => Ok(content_token(bytes)),
        Spot::Starts(_, _) => tag_token(alloc, spaced, bytes),
        Spot::Stops => tag_token(alloc, spaced, bytes),
    }
}

/// Takes the token at the front, which begins at `at`: how many bytes it has; None where it isn't allowed there.
#[tactic(auto, unfolding(crate::specs::Reading::token_step))]
fn take_token(
    alloc: Global,
    state: &mut State,
    spaced: bool,
    at: u32,
    bytes: &[u8],
) -> Result<Option<usize>, NoMemory>
    ensures value { IfOk result (λ n. option_map (λ n. (state.new, n)) n ≡ token_step state.old spaced at bytes.now) }
    ensures within { IfOk result (λ n. IfSome n (λ n. (0 < n) × (n ≤ length bytes.now))) }
{
    match token_at(alloc, state.spot, spaced, bytes)? {
        None => Ok(None),
        Some(Piece { token, size }) => {
            let allowed = state.take(alloc, at, token)?;
            if allowed { Ok(Some(size)) } else { Ok(None) }
        }
    }
}

/// Reads the tokens from `from` on.
fn read_tokens(alloc: Global, bytes: &[u8], from: usize) -> Result<Seq<Root>, DescriptorError>
    requires within { from ≤ length bytes.now }
    requires small { length bytes.now < 2 ^ 32 }
    ensures value { Answers result (read_from 0 false from (drop from bytes.now) first_state) }
    ensures within { IfErr result (IsWithin (length bytes.now)) }
{
    let mut state = State::new(alloc);
    let mut at = from;
    let mut spaced = false;
    while at < bytes.len() {
        let rest = after(bytes, at);
        if is_space(rest[0]) {
            spaced = true;
            at += 1;
            continue;
        }
        match take_token(alloc, &mut state, spaced, at as u32, rest)? {
            None => return Err(DescriptorError::Bad { at: at as u32 }),
            Some(size) => at += size,
        }
        spaced = false;
    }
    if !is_done(state.place, state.spot) {
        return Err(DescriptorError::Bad { at: at as u32 });
    }
    Ok(state.roots)
}

/// How many bytes the byte order mark has; 0 where there is none.
fn mark_length(bytes: &[u8]) -> usize
    ensures value { result ≡ mark_length bytes.now }
    ensures within { result ≤ length bytes.now }
{
    if bytes.starts_with(&[0xef, 0xbb, 0xbf]) {
        3
    } else {
        0
    }
}

/// How many bytes the declaration at the front has, `<?xml` up to `?>`; 0 where there is none, None where it isn't good.
#[tactic(auto, unfolding(crate::specs::Reading::declaration))]
fn declaration(bytes: &[u8]) -> Option<usize>
    ensures value { result ≡ declaration bytes.now }
    ensures within { IfSome result (λ n. n ≤ length bytes.now) }
{
    if !bytes.starts_with(b"<?xml") {
        return Some(0);
    }
    match place_of(b"?>", bytes) {
        None => None,
        Some(n) => {
            if is_text(&bytes[..n]) {
                Some(n + 2)
            } else {
                None
            }
        }
    }
}

/// The roots of a descriptor file, in the file's order: one for each `type` element, and one for each `assembly` element
/// without types. `source` is 0 in each. The file has at most 4294967295 bytes.
#[tactic(auto, unfolding(crate::specs::Reading::descriptor_of))]
pub fn read_descriptor(alloc: Global, bytes: &[u8]) -> Result<Seq<Root>, DescriptorError>
    requires { length bytes.now < 2 ^ 32 }
    ensures value { Answers result (descriptor_of bytes.now) }
    ensures within { IfErr result (IsWithin (length bytes.now)) }
{
    let mark = mark_length(bytes);
    match declaration(after(bytes, mark)) {
        None => Err(DescriptorError::Bad { at: mark as u32 }),
        Some(n) => read_tokens(alloc, bytes, mark + n),
    }
}
