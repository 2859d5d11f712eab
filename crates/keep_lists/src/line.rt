//! Lines of a keep list: `ASM:TOKEN KIND TEXT`.

ghost use Rattle.std.specs.Prelude.{◌≡◌, ◌++◌, OnOk};
ghost use Rattle.rules.specs.link_rules.Faults.{own_name};
ghost use Rattle.rules.specs.mark_rules.KeepList.{line};

use crate::digits::put_token;
use il_base::world_model::AsmRec;
use il_base::{NoMemory, Text};

/// The simple name of an assembly; empty where it has none.
fn own_name(rec: &AsmRec) -> &[u8]
    ensures { result.now ≡ own_name rec.now }
{
    match rec.assembly.as_slice() {
        [] => &[],
        [row, ..] => row.name.as_slice(),
    }
}

/// Puts a line at the end: the assembly's name, the token, the kind of item and its text.
#[tactic(auto, using(crate::proofs::Lines::line_put))]
pub(crate) fn put_line(
    rec: &AsmRec,
    token: u32,
    kind: &[u8],
    text: &[u8],
    out: &mut Text,
) -> Result<(), NoMemory>
    ensures { OnOk result (out.new ≡ out.old ++ line rec.now token kind.now text.now) }
{
    out.extend_from_slice(own_name(rec))?;
    out.push(b':')?;
    put_token(token, out)?;
    out.push(b' ')?;
    out.extend_from_slice(kind)?;
    out.push(b' ')?;
    out.extend_from_slice(text)?;
    out.push(b'\n')
}
