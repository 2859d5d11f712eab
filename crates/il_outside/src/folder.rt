ghost use Rattle.std.specs.Prelude.{◌≡◌, IfOk};
ghost use Rattle.il_outside.specs.declared.folder.FolderError.TheVariants.{NoMemory};
ghost use Rattle.il_outside.specs.Folder.{FolderState, KeepsFiles, Tells, WritesFile, ReadFaults, WriteFaults};

use il_base::{NoMemory, Text};
use std::alloc::Global;

/// Why a call on a folder gave no answer.
#[derive(Clone, Copy, Debug, PartialEq, Eq)]
pub enum FolderError {
    /// The file isn't there, or the outside failed.
    Failed,
    NoMemory,
}

impl From<NoMemory> for FolderError {
    ghost from_gives = { λ _ e. e ≡ NoMemory };

    fn from(_error: NoMemory) -> FolderError {
        FolderError::NoMemory
    }
}

/// Files by name.
pub trait Folder {
    ghost state: { Self → FolderState };

    /// The bytes under a name. Failed where there is no such file, and where the outside fails.
    fn read(&mut self, alloc: Global, name: &str) -> Result<Text, FolderError>
        ensures files { KeepsFiles (state self.old).files (state self.new).files }
        ensures bytes { IfOk result (λ bytes. Tells (state self.old).files name.now bytes) }
        ensures faults { ReadFaults (state self.old) (state self.new) name.now result };

    /// Puts the bytes under a name, in place of what was there. After Failed a prefix of them or what was there
    /// stands there, and after NoMemory what was there.
    fn write(&mut self, name: &str, bytes: &[u8]) -> Result<(), FolderError>
        ensures files { WritesFile (state self.old).files (state self.new).files name.now bytes.now result }
        ensures faults { WriteFaults (state self.old) (state self.new) name.now result };
}
