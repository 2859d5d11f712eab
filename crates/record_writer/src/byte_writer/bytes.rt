//! Numbers, zeros and padding, appended to bytes.

ghost use Rattle.std.specs.Prelude.{◌≡◌, ◌+◌, ◌-◌, ◌≤◌, ◌<◌, ◌^◌, ◌++◌, OnOk};
ghost use Rattle.byteorder.specs.Endian.{little_bytes};
ghost use Rattle.rules.specs.file_layout.Bytes.{half, word, zeros, aligned, padded};

use il_base::NoMemory;

/// Appends the lowest bytes of a number to the bytes, the lowest first.
#[tactic(auto, using(crate::proofs::lemmas::byte_writer::LowBytes::take_low))]
pub fn put_number(out: &mut Vec<u8>, width: usize, n: u64) -> Result<(), NoMemory>
    requires { width ≤ 8 }
    ensures { OnOk result (out.new.items ≡ out.old.items ++ little_bytes width n) }
{
    let bytes = n.to_le_bytes();
    out.extend_from_slice(&bytes[..width])?;
    Ok(())
}

/// Appends the lowest two bytes of a number to the bytes.
pub fn put_half(out: &mut Vec<u8>, n: u64) -> Result<(), NoMemory>
    ensures { OnOk result (out.new.items ≡ out.old.items ++ half n) }
{
    put_number(out, 2, n)
}

/// Appends the lowest four bytes of a number to the bytes.
pub fn put_word(out: &mut Vec<u8>, n: u64) -> Result<(), NoMemory>
    ensures { OnOk result (out.new.items ≡ out.old.items ++ word n) }
{
    put_number(out, 4, n)
}

/// Appends zeros to the bytes.
pub fn put_zeros(out: &mut Vec<u8>, count: usize) -> Result<(), NoMemory>
    requires { count < 2 ^ 32 }
    ensures { OnOk result (out.new.items ≡ out.old.items ++ zeros count) }
{
    out.resize(out.len() + count, 0)?;
    Ok(())
}

/// The next multiple of a number.
#[tactic(auto, unfolding(rules::specs::file_layout::Bytes::aligned))]
pub fn next_multiple(k: u64, n: u64) -> u64
    requires above { 0 < k }
    requires small { k ≤ 65536 }
    requires fits { n < 2 ^ 63 }
    ensures value { result ≡ aligned k n }
    ensures least { n ≤ result }
    ensures near { result < n + k }
{
    (n + (k - 1)) / k * k
}

/// Appends zeros to the bytes, up to the next multiple of a number.
pub fn pad(out: &mut Vec<u8>, k: u64) -> Result<(), NoMemory>
    requires above { 0 < k }
    requires small { k ≤ 65536 }
    ensures { OnOk result (out.new.items ≡ padded k out.old.items) }
{
    let len = out.len() as u64;
    let end = next_multiple(k, len);
    put_zeros(out, (end - len) as usize)
}
