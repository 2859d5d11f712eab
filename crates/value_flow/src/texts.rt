//! The texts of a code, and the types that they name.

ghost use Rattle.std.specs.Prelude.{◌≡◌, IfOk};
ghost use Rattle.std.specs.Option.{option_copied};
ghost use Rattle.rules.specs.flow_rules.Sources.{text_at, type_of_text};

use attr_blobs::{NameRead, parse_name};
use il_base::world_model::{AsmRec, UserText};
use il_base::{AsmId, NoMemory, TypeId, Units};
use std::alloc::Global;
use type_system::Types;

/// The text that `ldstr` names.
pub(crate) fn text_at(rec: &AsmRec, token: u32) -> Option<&UserText>
    ensures { option_copied result ≡ text_at rec.now token }
{
    for t in rec.user.as_slice() {
        if t.token == token {
            return Some(t);
        }
    }
    None
}

/// The type that a text names from an assembly, by its place from 0.
pub fn type_of_text(
    alloc: Global,
    types: &Types<'_>,
    from: u32,
    text: &Units,
) -> Result<Option<TypeId>, NoMemory>
    ensures { IfOk result (λ t. t ≡ type_of_text types.now.recs from text.now) }
{
    match parse_name(alloc, text) {
        Err(error) => Err(error),
        Ok(NameRead::Name(n)) => Ok(types.find_type(AsmId(from), &n)),
        Ok(NameRead::Other) => Ok(None),
        Ok(NameRead::Malformed) => Ok(None),
    }
}
