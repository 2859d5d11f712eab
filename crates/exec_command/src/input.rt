//! The input of a run.

ghost use Rattle.std.specs.Prelude.{◌≡◌, ◌<◌, ◌≤◌, ◌+◌, length, vec_len};
ghost use Rattle.exec_command.specs.Input.{ReadsInput};
ghost use Rattle.exec_command.specs.Turn.{Turns};

use il_base::{Seq, Text};
use il_outside::Source;
use std::alloc::Global;

/// The longest input, in bytes.
pub(crate) const MOST_BYTES: usize = 67_108_864;

/// The most that one read asks for, in bytes.
const BUFFER_BYTES: usize = 65_536;

/// Why the input couldn't be taken.
#[derive(Clone, Copy, Debug, PartialEq, Eq)]
pub(crate) enum InputFault {
    /// A read failed.
    Failed,
    /// More than `MOST_BYTES` bytes came.
    TooLong,
    NoMemory,
}

/// One read, which asks for no more than one byte past the longest input, and gives the number of bytes that it got: 0 at the
/// end of the input. They are put after those that came before.
fn turn<I: Source>(
    input: &mut I,
    buffer: &mut [u8],
    bytes: &mut Vec<u8>,
) -> Result<usize, InputFault>
    requires room { 0 < length buffer.old }
    requires short { vec_len bytes.old ≤ MOST_BYTES }
    ensures { Turns bytes.old.items bytes.new.items (I.state input.old) (I.state input.new) result }
{
    let room = buffer.len().min(MOST_BYTES + 1 - bytes.len());
    let part = &mut buffer[..room];
    match input.read(part) {
        Err(_) => Err(InputFault::Failed),
        Ok(n) => match bytes.extend_from_slice(&part[..n]) {
            Err(_) => Err(InputFault::NoMemory),
            Ok(()) => Ok(n),
        },
    }
}

/// Reads until the input is at its end, or too long.
fn read_into<I: Source>(alloc: Global, input: &mut I, buffer: &mut [u8]) -> Result<Text, InputFault>
    requires { 0 < length buffer.old }
    ensures { ReadsInput (I.state input.old) (I.state input.new) result }
{
    let mut bytes = Vec::new(alloc);
    while bytes.len() <= MOST_BYTES {
        match turn(input, buffer, &mut bytes) {
            Err(fault) => return Err(fault),
            Ok(0) => return Ok(Seq::from_vec(bytes)),
            Ok(_) => {}
        }
    }
    Err(InputFault::TooLong)
}

/// Reads the input to its end.
pub(crate) fn read_input<I: Source>(alloc: Global, input: &mut I) -> Result<Text, InputFault>
    ensures { ReadsInput (I.state input.old) (I.state input.new) result }
{
    let mut buffer = match vec![in alloc; 0u8; BUFFER_BYTES] {
        Err(_) => return Err(InputFault::NoMemory),
        Ok(buffer) => buffer,
    };
    read_into(alloc, input, buffer.as_mut_slice())
}
