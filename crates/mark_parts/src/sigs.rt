//! The types of signatures. A signature without a reading is one bad part.

ghost use Rattle.std.specs.Prelude.{◌≡◌, ◌++◌, OnOk};
ghost use Rattle.rules.specs.mark_rules.Naming.{type_parts, sig_parts, sigs_parts, method_type_parts, method_sig_parts};
ghost use Rattle.mark_parts.specs.mark_tables.Assemblies.{recs_of, place_of, rec_of, IsAssembly};

use crate::mark_facts::parts::Parts;
use crate::mark_tables::assembly::Assembly;
use il_base::world_model::{Known, TypeExpr};
use il_base::{MethodSig, NoMemory, Seq, Sig};
use rules::link_rules::MethodType;
use std::alloc::Global;
use type_tables::member_search::method_types::{open_method_type, open_type, open_types};

/// Adds the types of a row.
fn add_types(alloc: Global, row: u32, types: &[TypeExpr], parts: &mut Parts) -> Result<(), NoMemory>
    ensures { OnOk result (parts.new ≡ parts.old ++ type_parts row types.now) }
{
    for ty in types {
        let ty = ty.copy(alloc)?;
        parts.push_type(row, ty)?;
    }
    Ok(())
}

/// Adds the types of a method's signature: its return, then its parameters.
#[tactic(auto, using(crate::proofs::Lists::first_then))]
fn add_method_type(
    row: u32,
    alloc: Global,
    ty: MethodType,
    parts: &mut Parts,
) -> Result<(), NoMemory>
    ensures { OnOk result (parts.new ≡ parts.old ++ method_type_parts row ty) }
{
    let MethodType { ret, params, .. } = ty;
    parts.push_type(row, ret)?;
    add_types(alloc, row, params.as_slice(), parts)
}

/// Adds the type of a signature.
pub fn add_sig(
    alloc: Global,
    asm: &Assembly<'_>,
    row: u32,
    sig: &Known<Sig>,
    parts: &mut Parts,
) -> Result<(), NoMemory>
    requires { IsAssembly asm.now }
    ensures { OnOk result (parts.new ≡ parts.old ++ sig_parts (recs_of asm.now) (place_of asm.now) (rec_of asm.now) row sig.now) }
{
    match sig {
        Known::Bad(why) => parts.push_bad(row, *why),
        Known::Good(sig) => match open_type(alloc, &asm.scope, sig) {
            Ok(Known::Good(ty)) => parts.push_type(row, ty),
            Ok(Known::Bad(why)) => parts.push_bad(row, why),
            Err(error) => Err(error),
        },
    }
}

/// Adds the types of several signatures.
pub fn add_sigs(
    alloc: Global,
    asm: &Assembly<'_>,
    row: u32,
    sigs: &Known<Seq<Sig>>,
    parts: &mut Parts,
) -> Result<(), NoMemory>
    requires { IsAssembly asm.now }
    ensures { OnOk result (parts.new ≡ parts.old ++ sigs_parts (recs_of asm.now) (place_of asm.now) (rec_of asm.now) row sigs.now) }
{
    match sigs {
        Known::Bad(why) => parts.push_bad(row, *why),
        Known::Good(sigs) => match open_types(alloc, &asm.scope, sigs.as_slice()) {
            Ok(Known::Good(types)) => add_types(alloc, row, types.as_slice(), parts),
            Ok(Known::Bad(why)) => parts.push_bad(row, why),
            Err(error) => Err(error),
        },
    }
}

/// Adds the types of a method's or a property's signature.
pub fn add_method_sig(
    alloc: Global,
    asm: &Assembly<'_>,
    row: u32,
    sig: &Known<MethodSig>,
    parts: &mut Parts,
) -> Result<(), NoMemory>
    requires { IsAssembly asm.now }
    ensures { OnOk result (parts.new ≡ parts.old ++ method_sig_parts (recs_of asm.now) (place_of asm.now) (rec_of asm.now) row sig.now) }
{
    match sig {
        Known::Bad(why) => parts.push_bad(row, *why),
        Known::Good(sig) => match open_method_type(alloc, &asm.scope, sig) {
            Ok(Known::Good(ty)) => add_method_type(row, alloc, ty, parts),
            Ok(Known::Bad(why)) => parts.push_bad(row, why),
            Err(error) => Err(error),
        },
    }
}
