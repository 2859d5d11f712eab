//! What a trim left, written under its names.

ghost use Rattle.std.specs.Prelude.{◌≡◌};
ghost use Rattle.std.specs.Option.{option_copied};
ghost use Rattle.trim_command.specs.Writing.{IsApart, ListWrites, Leaves, KeepsOthers, written_names};

use il_outside::{Folder, FolderError};
use trim_core::Trimmed;

/// Writes the keep list under its name, where one is wanted.
fn put_list<F: Folder>(list: Option<&str>, kept: &[u8], folder: &mut F) -> Result<(), FolderError>
    ensures { ListWrites (option_copied list.entry) kept.now (F.state folder.old) (F.state folder.new) result }
{
    match list {
        None => Ok(()),
        Some(name) => folder.write(name, kept),
    }
}

/// Writes what was left under OUT, and then the keep list under its name. The first write that fails is the last one.
pub(crate) fn write_left<F: Folder>(
    output: &str,
    list: Option<&str>,
    left: &Trimmed,
    folder: &mut F,
) -> Result<(), FolderError>
    requires { IsApart output.now (option_copied list) }
    ensures written { Leaves left.now output.now (option_copied list.entry) (F.state folder.old) (F.state folder.new) result }
    ensures others { KeepsOthers (written_names output.now (option_copied list.entry)) (F.state folder.old).files (F.state folder.new).files }
{
    match folder.write(output, left.bytes.as_slice()) {
        Err(error) => Err(error),
        Ok(()) => put_list(list, left.kept.as_slice(), folder),
    }
}
