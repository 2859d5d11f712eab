//! Coded indices (II.24.2.6).

ghost use Rattle.std.specs.Prelude.{◌≡◌, ◌+◌, ◌*◌, ◌<◌, ◌≤◌, ◌^◌, ◌==◌, length, position, unwrap_or, IfSome};
ghost use Rattle.il_base.specs.cli_format.Coded.{tag_bits_of, targets_of};
ghost use Rattle.il_base.specs.cli_format.Tokens.{tag_of, coded_of};

use il_base::cli_format::{CodedIndex, first_tag, tag_bits, targets};
use il_base::world_model::{row_of, table_of};

/// The place of a table among some, counted from 0; None where it isn't among them.
fn position_in(tables: &[u8], table: u8) -> Option<usize>
    ensures value { result ≡ position (λ u. u == table) tables.now }
    ensures within { IfSome result (λ i. i < length tables.now) }
{
    tables.iter().position(|other| *other == table)
}

/// The place of a table among some, counted from 0; 0 where it isn't among them.
fn place_in(tables: &[u8], table: u8) -> usize
    requires { length tables.now < 30 }
    ensures value { result ≡ unwrap_or (position (λ u. u == table) tables.now) 0 }
    ensures small { result < 30 }
{
    match position_in(tables, table) {
        Some(place) => place,
        None => 0,
    }
}

/// The tables that the tags of a coded index name: fewer than 30.
fn few_targets(index: CodedIndex) -> &'static [u8]
    ensures value { result.now ≡ targets_of index }
    ensures few { length result.now < 30 }
{
    targets(index)
}

/// The tag that names a table.
fn tag(index: CodedIndex, table: u8) -> u32
    ensures value { result ≡ tag_of index table }
    ensures small { result < 32 }
{
    u32::from(first_tag(index)) + place_in(few_targets(index), table) as u32
}

/// A row above the tag.
fn above_tag(index: CodedIndex, row: u32) -> u32
    requires { row < 2 ^ 24 }
    ensures value { result ≡ row * 2 ^ tag_bits_of index }
    ensures small { result < 2 ^ 29 }
{
    match tag_bits(index) {
        1 => row * 2,
        2 => row * 4,
        3 => row * 8,
        _ => row * 32,
    }
}

/// The number of a token, 0 for none.
#[tactic(auto, unfolding(il_base::specs::cli_format::Tokens::coded_of))]
pub fn coded(index: CodedIndex, token: u32) -> u32
    ensures { result ≡ coded_of index token }
{
    if token == 0 {
        return 0;
    }
    above_tag(index, row_of(token)) + tag(index, table_of(token))
}
