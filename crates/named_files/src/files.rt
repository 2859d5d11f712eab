//! The files under some names.

ghost use Rattle.std.specs.Prelude.{◌≡◌, map};
ghost use Rattle.std.specs.String.{string_bytes};
ghost use Rattle.il_outside.specs.Folder.{KeepsFiles};
ghost use Rattle.named_files.specs.Files.{ReadsFiles};

use il_base::{Seq, Text};
use il_outside::{Folder, FolderError};
use std::alloc::Global;

/// Reads the files under all names, in their order. The first read that fails is the last one, and the folder stays as it was.
/// Failed where one of the names has no file, or the outside fails.
pub fn read_files<F: Folder>(
    alloc: Global,
    names: &[String],
    folder: &mut F,
) -> Result<Seq<Text>, FolderError>
    ensures read { ReadsFiles (map string_bytes names.now) (F.state folder.old) (F.state folder.new) result }
    ensures kept { KeepsFiles (F.state folder.old).files (F.state folder.new).files }
{
    let mut files = Seq::new(alloc);
    for name in names {
        match folder.read(alloc, name.as_str()) {
            Err(error) => return Err(error),
            Ok(file) => match files.push(file) {
                Err(_) => return Err(FolderError::NoMemory),
                Ok(()) => {}
            },
        }
    }
    Ok(files)
}
