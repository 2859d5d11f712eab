ghost use Rattle.std.specs.Prelude.{◌≡◌, ◌+◌, ◌<◌, ◌≤◌, ◌^◌, length, OnOk};
ghost use Rattle.il_base.specs.cli_format.Demand.{Checked, demand, bad, number, within};

use crate::reason::TRUNCATED;
use crate::{BadAt, u8_at, u16_at, u32_at, u64_at};

/// Refuses at an offset for a reason, unless the test holds.
#[tactic(auto, unfolding(crate::specs::cli_format::Demand::demand, crate::specs::cli_format::Demand::first_fault))]
pub fn need(holds: bool, offset: usize, why: u8) -> Result<(), BadAt>
    requires { offset < 2 ^ 32 }
    ensures { Checked result (demand holds (bad offset why)) tt }
{
    if holds {
        Ok(())
    } else {
        let offset = offset as u32;
        Err(BadAt { offset, why })
    }
}

/// Refuses bytes that end before `len` of them from a place.
#[tactic(auto, unfolding(crate::specs::cli_format::Demand::demand, crate::specs::cli_format::Demand::first_fault))]
pub fn need_bytes(bytes: &[u8], at: usize, len: usize) -> Result<(), BadAt>
    requires { length bytes.now < 2 ^ 32 }
    ensures checked { Checked result (within bytes.now at len) tt }
    ensures within { OnOk result (at + len ≤ length bytes.now) }
{
    if bytes.len() < len || bytes.len() - len < at {
        let offset = bytes.len() as u32;
        return Err(BadAt {
            offset,
            why: TRUNCATED,
        });
    }
    Ok(())
}

/// The byte at a place, 0 where the bytes end before.
#[tactic(auto, unfolding(crate::specs::cli_format::Demand::number))]
pub fn u8_in(bytes: &[u8], at: usize) -> u8
    ensures { result ≡ number 1 bytes.now at }
{
    u8_at(bytes, at).unwrap_or(0)
}

/// The number in two bytes at a place, the lowest first, 0 where the bytes end before.
#[tactic(auto, unfolding(crate::specs::cli_format::Demand::number))]
pub fn u16_in(bytes: &[u8], at: usize) -> u16
    ensures { result ≡ number 2 bytes.now at }
{
    u16_at(bytes, at).unwrap_or(0)
}

/// The number in four bytes at a place, the lowest first, 0 where the bytes end before.
#[tactic(auto, unfolding(crate::specs::cli_format::Demand::number))]
pub fn u32_in(bytes: &[u8], at: usize) -> u32
    ensures { result ≡ number 4 bytes.now at }
{
    u32_at(bytes, at).unwrap_or(0)
}

/// The number in eight bytes at a place, the lowest first, 0 where the bytes end before.
#[tactic(auto, unfolding(crate::specs::cli_format::Demand::number))]
pub fn u64_in(bytes: &[u8], at: usize) -> u64
    ensures { result ≡ number 8 bytes.now at }
{
    u64_at(bytes, at).unwrap_or(0)
}
