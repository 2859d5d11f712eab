//! Duplicate types, fields and methods.

ghost use Rattle.std.specs.Prelude.{◌≡◌, ◌≤◌, length, take, bytes_eq, IfOk};
ghost use Rattle.rules.specs.link_rules.Faults.{first_of, first_repeat, repeated_row, repeated_type, repeated_field, repeated_method, repeated_in, duplicate_member};
ghost use Rattle.rules.specs.link_rules.Laws.{AreTypeLinks};
ghost use Rattle.link_faults.specs.TypeCycles.{Tells, HasAssembly};

use crate::found::row_fault;
use crate::member_keys::{field_codes, method_codes};
use crate::repeats::first_repeat;
use crate::scope::Scope;
use crate::type_keys::type_codes;
use base_laws::link_laws::laws::links_tell;
use il_base::world_model::{AsmRec, TypeLink};
use il_base::{AsmId, NoMemory, Seq, reason, table};
use rules::link_rules::LinkError;
use std::alloc::Global;

/// The fault of the first row with the key of an earlier one.
fn repeated_row(
    alloc: Global,
    file: usize,
    table: u8,
    codes: &[Option<Seq<u32>>],
) -> Result<Option<LinkError>, NoMemory>
    ensures { IfOk result (λ found. found ≡ repeated_row file table (first_repeat bytes_eq codes.now)) }
{
    match first_repeat(alloc, codes)? {
        None => Ok(None),
        Some(at) => {
            let fault = row_fault(file, reason::DUPLICATE_MEMBER, table, at)?;
            Ok(Some(fault))
        }
    }
}

/// The first type of an assembly whose namespace, name and encloser an earlier one has.
fn repeated_type(alloc: Global, file: usize, rec: &AsmRec) -> Result<Option<LinkError>, NoMemory>
    ensures { IfOk result (λ found. found ≡ repeated_type file rec.now) }
{
    let codes = type_codes(alloc, rec)?;
    let found = repeated_row(alloc, file, table::TYPE_DEF, &codes)?;
    Ok(found)
}

/// The first field of an assembly whose type, name and signature an earlier one has.
fn repeated_field(
    alloc: Global,
    scope: &Scope<'_>,
    asm: AsmId,
    rec: &AsmRec,
) -> Result<Option<LinkError>, NoMemory>
    requires told { Tells scope.now.all.now scope.now.links.now }
    requires there { HasAssembly scope.now.all.now asm.0 rec.now }
    ensures { IfOk result (λ found. found ≡ repeated_field scope.now.all.now asm.0 rec.now) }
{
    let codes = field_codes(alloc, scope, asm, rec)?;
    let found = repeated_row(alloc, asm.0 as usize, table::FIELD, &codes)?;
    Ok(found)
}

/// The first method of an assembly whose type, name and signature an earlier one has.
fn repeated_method(
    alloc: Global,
    scope: &Scope<'_>,
    asm: AsmId,
    rec: &AsmRec,
) -> Result<Option<LinkError>, NoMemory>
    requires told { Tells scope.now.all.now scope.now.links.now }
    requires there { HasAssembly scope.now.all.now asm.0 rec.now }
    ensures { IfOk result (λ found. found ≡ repeated_method scope.now.all.now asm.0 rec.now) }
{
    let codes = method_codes(alloc, scope, asm, rec)?;
    let found = repeated_row(alloc, asm.0 as usize, table::METHOD_DEF, &codes)?;
    Ok(found)
}

/// The first duplicate type of an assembly, else its first duplicate field, else its first duplicate method.
fn repeated_in(
    alloc: Global,
    scope: &Scope<'_>,
    file: usize,
    rec: &AsmRec,
) -> Result<Option<LinkError>, NoMemory>
    requires told { Tells scope.now.all.now scope.now.links.now }
    requires there { HasAssembly scope.now.all.now file rec.now }
    ensures { IfOk result (λ found. found ≡ repeated_in scope.now.all.now file rec.now) }
{
    let Ok(asm) = u32::try_from(file) else {
        return Err(NoMemory);
    };
    if let Some(found) = repeated_type(alloc, file, rec)? {
        return Ok(Some(found));
    }
    if let Some(found) = repeated_field(alloc, scope, AsmId(asm), rec)? {
        return Ok(Some(found));
    }
    repeated_method(alloc, scope, AsmId(asm), rec)
}

/// The first duplicate type, field or method in one of these assemblies.
#[tactic(auto, unfolding(rules::specs::link_rules::Faults::duplicate_member))]
fn first_duplicate(
    alloc: Global,
    scope: &Scope<'_>,
    inputs: usize,
) -> Result<Option<LinkError>, NoMemory>
    requires told { Tells scope.now.all.now scope.now.links.now }
    requires inputs { inputs ≤ length scope.now.all.now }
    ensures { IfOk result (λ found. found ≡ duplicate_member scope.now.all.now (take inputs scope.now.all.now)) }
{
    let recs = &scope.all[..inputs];
    for (file, rec) in recs.iter().enumerate() {
        let found = repeated_in(alloc, scope, file, rec)?;
        if found.is_some() {
            return Ok(found);
        }
    }
    Ok(None)
}

/// The first duplicate type, field or method in one of the first assemblies, `inputs` of them: types by
/// namespace, name and encloser (II.22.37), members by type, name and signature (II.22.15, II.22.26). `links` are the links
/// of the type tokens of all assemblies.
pub fn duplicate_member(
    alloc: Global,
    all: &[AsmRec],
    inputs: usize,
    links: &[TypeLink],
) -> Result<Option<LinkError>, NoMemory>
    requires told { AreTypeLinks all.now links.now }
    requires inputs { inputs ≤ length all.now }
    ensures { IfOk result (λ found. found ≡ duplicate_member all.now (take inputs all.now)) }
{
    links_tell();
    let scope = Scope::of(all, links)?;
    first_duplicate(alloc, &scope, inputs)
}
