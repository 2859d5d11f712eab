ghost use Rattle.std.specs.Prelude.{◌≡◌, ◌++◌, ◌<◌, ◌∷◌, [], length, min, OnOk, OnErr};
ghost use Rattle.byteorder.specs.Endian.{little_bytes};
ghost use Rattle.attr_blobs.specs.Texts.{bytes_of};
ghost use Rattle.attr_blobs.specs.Writing.{text_bytes, text_or_null_bytes};
ghost use Rattle.il_base.specs.blob_grammar.Numbers.{shortest};
ghost use Rattle.attr_blobs.specs.Answers.{Extends};

use crate::text::Width;
use il_base::{NoMemory, Text};

/// Appends the shortest spelling of a number to the bytes (II.23.2).
#[tactic(auto, unfolding(il_base::specs::blob_grammar::Numbers::shortest))]
pub fn put_length(n: u32, out: &mut Vec<u8>) -> Result<(), NoMemory>
    requires { n < 536870912 }
    ensures ok { OnOk result (out.new.items ≡ out.old.items ++ shortest n) }
    ensures err { OnErr result (out.new.items ≡ out.old.items) }
{
    if n < 0x80 {
        out.push(n as u8)?;
    } else if n < 0x4000 {
        out.extend_from_slice(&[(0x80 + n / 0x100) as u8, (n % 0x100) as u8])?;
    } else {
        out.extend_from_slice(&[
            (0xc0 + n / 0x100_0000) as u8,
            (n / 0x1_0000 % 0x100) as u8,
            (n / 0x100 % 0x100) as u8,
            (n % 0x100) as u8,
        ])?;
    }
    Ok(())
}

/// Appends a number of so many bytes to the bytes, the lowest first.
pub fn put_sized(width: Width, n: u64, out: &mut Vec<u8>) -> Result<(), NoMemory>
    ensures ok { OnOk result (out.new.items ≡ out.old.items ++ little_bytes (bytes_of width) n) }
    ensures err { OnErr result (out.new.items ≡ out.old.items) }
{
    let bytes = n.to_le_bytes();
    match width {
        Width::One => out.extend_from_slice(&bytes[..1])?,
        Width::Two => out.extend_from_slice(&bytes[..2])?,
        Width::Four => out.extend_from_slice(&bytes[..4])?,
        Width::Eight => out.extend_from_slice(&bytes)?,
    }
    Ok(())
}

/// Appends a text to the bytes: its length, and its bytes.
#[tactic(auto, unfolding(crate::specs::Writing::text_bytes))]
pub fn put_text(text: &[u8], out: &mut Vec<u8>) -> Result<(), NoMemory>
    ensures ok { OnOk result (out.new.items ≡ out.old.items ++ text_bytes text.now) }
    ensures err { OnErr result (Extends out.old.items out.new.items) }
{
    let length = text.len().min(0x1fff_ffff) as u32;
    put_length(length, out)?;
    out.extend_from_slice(text)?;
    Ok(())
}

/// Appends a text or null to the bytes.
pub fn put_text_or_null(text: &Option<Text>, out: &mut Vec<u8>) -> Result<(), NoMemory>
    ensures ok { OnOk result (out.new.items ≡ out.old.items ++ text_or_null_bytes text.now) }
    ensures err { OnErr result (Extends out.old.items out.new.items) }
{
    match text {
        Some(text) => put_text(text.as_slice(), out),
        None => {
            out.push(0xff)?;
            Ok(())
        }
    }
}
