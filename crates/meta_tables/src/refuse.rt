ghost use Rattle.std.specs.Prelude.{◌≡◌, ◌<◌, ◌^◌, ◌==◌, length, position, take, drop, ◌+◌, ◌≤◌, OnOk, IfSome, true};
ghost use Rattle.il_base.specs.cli_format.Demand.{Checked, demand};
ghost use Rattle.il_base.specs.cli_format.Metadata.{bad_at};

use il_base::BadAt;
use il_base::cli_format::TablesError;

/// Refuses at an offset for a reason, unless the test holds.
#[tactic(auto, unfolding(il_base::specs::cli_format::Demand::demand, il_base::specs::cli_format::Demand::first_fault))]
pub fn need(holds: bool, offset: usize, why: u8) -> Result<(), TablesError>
    requires { offset < 2 ^ 32 }
    ensures checked { Checked result (demand holds (bad_at offset why)) tt }
    ensures held { OnOk result (holds ≡ true) }
{
    if holds {
        Ok(())
    } else {
        let offset = offset as u32;
        Err(TablesError::Bad(BadAt { offset, why }))
    }
}

/// The index of the first zero.
pub fn find_zero(bytes: &[u8]) -> Option<usize>
    ensures value { result ≡ position (λ b. b == 0) bytes.now }
    ensures within { IfSome result (λ n. n < length bytes.now) }
{
    bytes.iter().position(|b| *b == 0)
}

/// `len` bytes from a place.
pub fn part(bytes: &[u8], at: usize, len: usize) -> &[u8]
    requires { at + len ≤ length bytes.now }
    ensures { result.now ≡ take len (drop at bytes.now) }
{
    &bytes[at..][..len]
}
