//! The files and the descriptors of a trim.

ghost use Rattle.std.specs.Prelude.{◌≡◌, map};
ghost use Rattle.std.specs.String.{string_bytes};
ghost use Rattle.il_outside.specs.Folder.{KeepsFiles};
ghost use Rattle.trim_command.specs.Reading.{ReadsGiven};

use il_base::{Seq, Text};
use il_outside::{Folder, FolderError};
use named_files::read_files;
use std::alloc::Global;

/// What a trim is given.
#[derive(Drop)]
pub(crate) struct Given {
    pub(crate) files: Seq<Text>,
    pub(crate) descriptors: Seq<Text>,
}

/// Reads every file and then every descriptor, each in the order of the names. The first read that fails is the last one.
pub(crate) fn read_given<F: Folder>(
    alloc: Global,
    inputs: &[String],
    descriptors: &[String],
    folder: &mut F,
) -> Result<Given, FolderError>
    ensures read { ReadsGiven (map string_bytes inputs.now) (map string_bytes descriptors.now) (F.state folder.old) (F.state folder.new) result }
    ensures kept { KeepsFiles (F.state folder.old).files (F.state folder.new).files }
{
    match read_files(alloc, inputs, folder) {
        Err(error) => Err(error),
        Ok(files) => match read_files(alloc, descriptors, folder) {
            Err(error) => Err(error),
            Ok(texts) => Ok(Given {
                files,
                descriptors: texts,
            }),
        },
    }
}
