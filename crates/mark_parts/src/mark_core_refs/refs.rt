//! Type references to the core library, through enclosers.

ghost use Rattle.std.specs.Prelude.{◌≡◌};
ghost use Rattle.rules.specs.mark_rules.Attributes.{is_core_ref};
ghost use Rattle.mark_parts.specs.mark_core_refs.Scopes.{scope_of};

use il_base::table;
use il_base::world_model::{AsmRec, index_in, is_core_scope};

/// The ResolutionScope of a type reference, by its token.
fn scope_of(rec: &AsmRec, token: u32) -> Option<u32>
    ensures { result ≡ scope_of rec.now token }
{
    let k = index_in(table::TYPE_REF, token)?;
    match rec.type_ref.get(k as usize) {
        None => None,
        Some(row) => Some(row.resolution_scope),
    }
}

/// Whether a token is that of a type reference to the core library, or of one that is nested in such a type.
pub fn is_core_ref(rec: &AsmRec, token: u32) -> bool
    ensures { result ≡ is_core_ref rec.now token }
{
    let count = rec.type_ref.len();
    let mut at = token;
    for _ in 0..count {
        let Some(scope) = scope_of(rec, at) else {
            return false;
        };
        if is_core_scope(rec, scope) {
            return true;
        }
        at = scope;
    }
    false
}
