//! Signatures of methods.

ghost use Rattle.std.specs.Prelude.{◌≡◌, codes, IfOk};
ghost use Rattle.il_base.specs.world_model.Core.{same_name};
ghost use Rattle.il_base.specs.world_model.Worlds.{known_map, known_then, type_id};
ghost use Rattle.rules.specs.link_rules.Signatures.{names_at, method_type};
ghost use Rattle.mark_parts.specs.mark_tables.Assemblies.{recs_of, place_of, rec_of, IsAssembly};
ghost use Rattle.rules.specs.view_rules.Methods.{signature_by};

use il_base::cil_values::Signature;
use il_base::world_model::{AsmRec, Known, MethodDefRow};
use il_base::{MethodSig, NoMemory};
use mark_parts::mark_tables::assembly::Assembly;
use rules::link_rules::{MethodType, RowAt};
use std::alloc::Global;
use type_tables::member_search::counted::{Counted, rows_before, sum};
use type_tables::member_search::method_types::open_method_type;

/// The signature of a method of this type.
fn signature_by(m: MethodType) -> Signature
    ensures { result ≡ signature_by m }
{
    Signature {
        this: m.this,
        own: m.generic,
        params: m.params,
        ret: m.ret,
    }
}

/// A signature with its types, or why it has no meaning.
pub(crate) fn signature_of(
    alloc: Global,
    asm: &Assembly<'_>,
    sig: &Known<MethodSig>,
) -> Result<Known<Signature>, NoMemory>
    requires { IsAssembly asm.now }
    ensures { IfOk result (λ s. s ≡ known_map signature_by (known_then (method_type (names_at (recs_of asm.now) (place_of asm.now) (rec_of asm.now))) sig.now)) }
{
    match sig {
        Known::Bad(why) => Ok(Known::Bad(*why)),
        Known::Good(sig) => match open_method_type(alloc, &asm.scope, sig) {
            Ok(Known::Good(m)) => Ok(Known::Good(signature_by(m))),
            Ok(Known::Bad(why)) => Ok(Known::Bad(why)),
            Err(error) => Err(error),
        },
    }
}

/// The place of a type in the world: the types of all assemblies before it count first.
pub(crate) fn type_place(all: &[AsmRec], at: RowAt) -> Result<u32, NoMemory>
    ensures { IfOk result (λ place. place ≡ (type_id all.now at.asm at.row).0) }
{
    let before = rows_before(all, Counted::Types, at.asm as usize)?;
    sum(before, at.row as usize)
}

/// Whether a method is an instance constructor, by its name.
pub(crate) fn is_constructor(m: &MethodDefRow) -> bool
    ensures { result ≡ same_name m.now.name (codes ".ctor") }
{
    m.name.as_slice() == b".ctor".as_slice()
}
