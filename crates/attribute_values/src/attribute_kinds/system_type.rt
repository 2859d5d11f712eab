//! System.Type of the core library.

ghost use Rattle.std.specs.Prelude.{◌≡◌, codes};
ghost use Rattle.il_base.specs.world_model.Core.{same_name};
ghost use Rattle.rules.specs.type_rules.Texts.{full_name_of, full_name};
ghost use Rattle.rules.specs.mark_rules.Attributes.{is_system_type_row};

use il_base::world_model::{AsmRec, TypeDefRow};
use rules::link_rules::RowAt;

/// Whether a namespace and a name, with the full stop between, are System.Type, wherever the namespace ends.
#[tactic(auto, using(crate::proofs::lemmas::attribute_kinds::SystemType::by_parts))]
fn is_named_so(namespace: &[u8], name: &[u8]) -> bool
    ensures { result ≡ same_name (full_name_of namespace.now name.now) (codes "System.Type") }
{
    let alone = namespace == b"".as_slice() && name == b"System.Type".as_slice();
    let in_system = namespace == b"System".as_slice() && name == b"Type".as_slice();
    alone || in_system
}

/// Whether the full name of a type is System.Type.
fn is_system_type(t: &TypeDefRow) -> bool
    ensures { result ≡ same_name (full_name t.now) (codes "System.Type") }
{
    is_named_so(t.namespace.as_slice(), t.name.as_slice())
}

/// Whether a type is System.Type of the core library, which is the last assembly.
pub fn is_system_type_row(all: &[AsmRec], at: RowAt) -> bool
    ensures { result ≡ is_system_type_row all.now at }
{
    match all.get(at.asm as usize) {
        None => false,
        Some(rec) => match rec.type_def.get(at.row as usize) {
            None => false,
            Some(t) => at.asm as usize + 1 == all.len() && is_system_type(t),
        },
    }
}
