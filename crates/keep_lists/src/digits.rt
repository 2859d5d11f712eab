//! Tokens in hexadecimal.

ghost use Rattle.std.specs.Prelude.{◌≡◌, ◌++◌, ◌<◌, OnOk};
ghost use Rattle.rules.specs.mark_rules.KeepList.{hex_digit, hex_8};
ghost use Rattle.keep_lists.specs.Lists.{high_digits, low_digits};

use il_base::{NoMemory, Text};

/// A lower-case hexadecimal digit.
fn hex_digit(n: u32) -> u8
    requires { n < 16 }
    ensures { result ≡ hex_digit n }
{
    if n < 10 { 48 + n as u8 } else { 87 + n as u8 }
}

/// Puts the high four digits of a number at the end.
fn put_high(n: u32, out: &mut Text) -> Result<(), NoMemory>
    ensures { OnOk result (out.new ≡ out.old ++ high_digits n) }
{
    out.push(hex_digit(n / 0x1000_0000 % 16))?;
    out.push(hex_digit(n / 0x100_0000 % 16))?;
    out.push(hex_digit(n / 0x10_0000 % 16))?;
    out.push(hex_digit(n / 0x1_0000 % 16))
}

/// Puts the low four digits of a number at the end.
fn put_low(n: u32, out: &mut Text) -> Result<(), NoMemory>
    ensures { OnOk result (out.new ≡ out.old ++ low_digits n) }
{
    out.push(hex_digit(n / 0x1000 % 16))?;
    out.push(hex_digit(n / 0x100 % 16))?;
    out.push(hex_digit(n / 0x10 % 16))?;
    out.push(hex_digit(n % 16))
}

/// Puts a token in 8 digits at the end.
#[tactic(auto, using(crate::proofs::Lines::eight_digits))]
pub(crate) fn put_token(token: u32, out: &mut Text) -> Result<(), NoMemory>
    ensures { OnOk result (out.new ≡ out.old ++ hex_8 token) }
{
    put_high(token, out)?;
    put_low(token, out)
}
