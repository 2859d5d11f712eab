//! The limits on the number and the lengths of files.

ghost use Rattle.std.specs.Prelude.{◌≡◌, IfOk};
ghost use Rattle.inputs.specs.Files.{limit_fault, length_fault, bytes_of, Passes};

use crate::error::InputError;
use il_base::{NoMemory, Text, limit};

/// The most files.
const MOST_FILES: usize = 64;
/// The most bytes of a file.
const MOST_BYTES: usize = 67_108_864;
/// The most bytes of all files together.
const MOST_TOGETHER: u64 = 536_870_912;

/// The first file that is too long.
#[tactic(auto, unfolding(crate::specs::Files::length_fault))]
fn length_fault(files: &[Text]) -> Option<InputError>
    ensures { result ≡ length_fault files.now }
{
    match files {
        [] => None,
        [file, rest @ ..] => {
            if file.len() > MOST_BYTES {
                return Some(InputError::Limit {
                    which: limit::FILE_LENGTH,
                    found: file.len() as u64,
                });
            }
            length_fault(rest)
        }
    }
}

/// The sum of the lengths, in bytes. No memory holds files whose sum doesn't fit.
#[tactic(auto, unfolding(crate::specs::Files::bytes_of))]
fn bytes_of(files: &[Text]) -> Result<u64, NoMemory>
    ensures { IfOk result (λ n. n ≡ bytes_of files.now) }
{
    match files {
        [] => Ok(0),
        [file, rest @ ..] => {
            let more = bytes_of(rest)?;
            match more.checked_add(file.len() as u64) {
                None => Err(NoMemory),
                Some(sum) => Ok(sum),
            }
        }
    }
}

/// The first limit that files pass: the number of files, then the length of each, then the sum of the lengths.
pub fn within_limits(files: &[Text]) -> Result<(), InputError>
    ensures { Passes (limit_fault files.now) result }
{
    if files.len() > MOST_FILES {
        return Err(InputError::Limit {
            which: limit::FILES,
            found: files.len() as u64,
        });
    }
    if let Some(fault) = length_fault(files) {
        return Err(fault);
    }
    let sum = bytes_of(files)?;
    if sum > MOST_TOGETHER {
        return Err(InputError::Limit {
            which: limit::TOTAL_LENGTH,
            found: sum,
        });
    }
    Ok(())
}
