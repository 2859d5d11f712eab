ghost use Rattle.std.specs.Prelude.{◌≡◌, Some, codes};
ghost use Rattle.il_base.specs.world_model.Core.{is_core_name, is_core_scope};

use crate::table;
use crate::world_model::record::AsmRec;
use crate::world_model::tokens::index_in;

/// Whether this is one of the names under which the core library is referred to.
#[tactic(auto, unfolding(crate::specs::world_model::Core::is_core_name))]
pub fn is_core_name(name: &[u8]) -> bool
    ensures { result ≡ is_core_name name.now }
{
    name == b"System.Runtime".as_slice()
        || name == b"System.Console".as_slice()
        || name == b"System.Private.CoreLib".as_slice()
        || name == b"mscorlib".as_slice()
        || name == b"netstandard".as_slice()
}

/// Whether a scope token names a reference to the core library.
pub fn is_core_scope(rec: &AsmRec, token: u32) -> bool
    ensures { result ≡ is_core_scope rec.now token }
{
    let Some(at) = index_in(table::ASSEMBLY_REF, token) else {
        return false;
    };
    match rec.assembly_ref.get(at as usize) {
        None => false,
        Some(row) => is_core_name(row.name.as_slice()),
    }
}
