//! A sink in memory that never fails.

ghost use Rattle.std.specs.Prelude.{◌≡◌, [], Some};
ghost use Rattle.il_outside.specs.Streams.{SinkState};

use il_base::{Seq, Text};
use il_outside::{Sink, SinkError};
use std::alloc::Global;

/// The bytes that were written.
#[derive(Drop)]
pub(crate) struct Collected {
    bytes: Vec<u8>,
}

impl Collected {
    ghost use Rattle.file_runs.specs.Collect.{collected};

    pub(crate) fn new(alloc: Global) -> Collected
        ensures { collected result ≡ record { held = Some []; faults = 0 } }
    {
        Collected {
            bytes: Vec::new(alloc),
        }
    }

    pub(crate) fn into_text(self) -> Text
        ensures { (collected self).held ≡ Some result }
    {
        let Collected { bytes } = self;
        Seq::from_vec(bytes)
    }
}

impl Sink for Collected {
    ghost use Rattle.file_runs.specs.Collect.{collected};

    ghost state = { λ c. collected c };

    fn write(&mut self, bytes: &[u8]) -> Result<usize, SinkError> {
        match self.bytes.extend_from_slice(bytes) {
            Ok(()) => Ok(bytes.len()),
            Err(_) => Err(SinkError::NoMemory),
        }
    }
}
