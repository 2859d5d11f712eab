ghost use Rattle.std.specs.Prelude.{◌≡◌, Some, None};
ghost use Rattle.il_outside.specs.Faults.{Rose};

use crate::folder::{Folder, FolderError};
use il_base::Text;
use std::alloc::Global;
use std::fs::File;
use std::io;
use std::io::{ErrorKind, Read};
use std::rt::Files;

// One byte more than the longest file that any call takes, 2^28 bytes, so that a longer file shows.
const MOST_BYTES: u64 = 268_435_457;

/// The files of the disk, which tell nothing of what they hold. Names are paths.
#[derive(Drop)]
pub struct DiskFolder<'a, R> {
    rt: &'a R,
    alloc: Global,
    read_faults: u64,
    write_faults: u64,
    failed: Option<Text>,
}

impl<'a, R: Files> DiskFolder<'a, R> {
    pub fn new(alloc: Global, rt: &'a R) -> DiskFolder<'a, R>
        ensures reads { result.read_faults ≡ 0 }
        ensures writes { result.write_faults ≡ 0 }
        ensures failed { result.failed ≡ None }
    {
        DiskFolder {
            rt,
            alloc,
            read_faults: 0,
            write_faults: 0,
            failed: None,
        }
    }
}

impl<'a, R: Files> Folder for DiskFolder<'a, R> {
    ghost state = { λ d. record { files = None; read_faults = d.read_faults; write_faults = d.write_faults; failed = d.failed } };

    // Of a file of more than `MOST_BYTES` bytes it gives these.
    fn read(&mut self, alloc: Global, name: &str) -> Result<Text, FolderError> {
        let copy = Text::from_slice(self.alloc, name.as_bytes())?;
        match read_file(self.rt, alloc, name) {
            Ok(bytes) => Ok(Text::from_vec(bytes)),
            Err(error) => {
                if error.kind() == ErrorKind::OutOfMemory {
                    return Err(FolderError::NoMemory);
                }
                self.read_faults = self.read_faults.saturating_add(1);
                self.failed = Some(copy);
                Err(FolderError::Failed)
            }
        }
    }

    fn write(&mut self, name: &str, bytes: &[u8]) -> Result<(), FolderError> {
        let copy = Text::from_slice(self.alloc, name.as_bytes())?;
        match std::fs::write(self.rt, name, bytes) {
            Ok(()) => Ok(()),
            Err(_) => {
                self.write_faults = self.write_faults.saturating_add(1);
                self.failed = Some(copy);
                Err(FolderError::Failed)
            }
        }
    }
}

fn read_file<R: Files>(rt: &R, alloc: Global, name: &str) -> io::Result<Vec<u8>> {
    let mut bytes = Vec::new(alloc);
    File::open(rt, name)?
        .take(MOST_BYTES)
        .read_to_end(&mut bytes)?;
    Ok(bytes)
}
