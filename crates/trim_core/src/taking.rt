//! The records and the entry method of files that were taken as a world.

ghost use Rattle.std.specs.Prelude.{◌≡◌};
ghost use Rattle.inputs.specs.Files.{records};
ghost use Rattle.trim_core.specs.Told.{entry_row};
ghost use Rattle.trim_core.specs.Taken.{IsTaken};

use il_base::world_model::{AsmRec, World, index_in};
use il_base::{Seq, Text, table};
use rules::link_rules::RowAt;

/// The records of the files, which are the first of their world.
#[tactic(auto, using(crate::proofs::FileLemmas::inputs_within, crate::proofs::FileLemmas::inputs_are))]
pub(crate) fn inputs_of<'a>(files: &Seq<Text>, world: &'a World) -> &'a [AsmRec]
    requires { IsTaken files.now world.now }
    ensures { result.now ≡ records files.now }
{
    let count = files.len();
    &world.recs.as_slice()[..count]
}

/// The entry method of the first of these inputs.
pub(crate) fn entry_row(inputs: &[AsmRec]) -> Option<RowAt>
    ensures { result ≡ entry_row inputs.now }
{
    match inputs {
        [] => None,
        [rec, ..] => match index_in(table::METHOD_DEF, rec.entry) {
            None => None,
            Some(row) => Some(RowAt { asm: 0, row }),
        },
    }
}
