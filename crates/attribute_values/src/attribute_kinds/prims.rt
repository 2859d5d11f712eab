//! The kinds of primitive types (II.23.1.16).

ghost use Rattle.std.specs.Prelude.{◌≡◌};
ghost use Rattle.rules.specs.link_rules.Signatures.{prim_at};
ghost use Rattle.rules.specs.mark_rules.Attributes.{prim_kind, absent_kind};

use attr_blobs::ParamKind;
use il_base::world_model::{AsmRec, prim_of};
use il_base::{Text, element};
use rules::link_rules::RowAt;
use std::alloc::Global;

/// The kind of a primitive type, by its element type; None for one that no value has.
pub fn prim_kind(n: u8) -> Option<ParamKind>
    ensures { result ≡ prim_kind n }
{
    if n == element::STRING {
        return Some(ParamKind::Text);
    }
    if n == element::OBJECT {
        return Some(ParamKind::Boxed);
    }
    if element::VOID < n && n < element::STRING {
        return Some(ParamKind::Prim(n));
    }
    None
}

/// The element type of a primitive of the core library, which is the last assembly; None for any other type.
pub fn prim_at(all: &[AsmRec], at: RowAt) -> Option<u8>
    ensures { result ≡ prim_at all.now at }
{
    match all {
        [] => None,
        [others @ .., core] => {
            if at.asm as usize != others.len() {
                return None;
            }
            match core.type_def.get(at.row as usize) {
                Some(row) => prim_of(row),
                None => None,
            }
        }
    }
}

/// The kind of a type without a definition: a value type of the core library is an enum of four bytes.
pub fn absent_kind(alloc: Global, value: bool) -> Option<ParamKind>
    ensures { result ≡ absent_kind value }
{
    if value {
        return Some(ParamKind::Enum {
            name: Text::new(alloc),
            size: 4,
        });
    }
    None
}
