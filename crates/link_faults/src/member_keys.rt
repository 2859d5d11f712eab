//! The keys of the fields and methods of an assembly, as numbers: type, name and signature.

ghost use Rattle.std.specs.Prelude.{◌≡◌, ◌<◌, length, slice_index_or, None, IfOk};
ghost use Rattle.std.specs.Option.{option_map};
ghost use Rattle.il_base.specs.world_model.Worlds.{sig_expr, names_by};
ghost use Rattle.rules.specs.link_rules.Members.{good_type, is_compiler_controlled};
ghost use Rattle.link_faults.specs.Codes.{type_code};
ghost use Rattle.link_faults.specs.Keys.{code_of_member, code_of_field, field_codes, codes_of_types, code_of_parts, code_of_signature, code_of_known, code_of_method, method_codes};

use crate::codes::{add_count, add_text, add_type, bit};
use crate::owners::{Member, owners};
use crate::scope::Scope;
use il_base::method_flags::COMPILER_CONTROLLED;
use il_base::world_model::{AsmRec, FieldRow, Known, MethodDefRow};
use il_base::{AsmId, MethodSig, NoMemory, Seq, Sig, access_of};
use std::alloc::Global;

/// Whether a member is compiler-controlled (II.23.1.5, II.23.1.10).
fn is_compiler_controlled(flags: u16) -> bool
    ensures { result ≡ is_compiler_controlled flags }
{
    access_of(flags) == COMPILER_CONTROLLED
}

/// The key of a member of this type, name and signature, where it has all three.
fn code_of_member(
    alloc: Global,
    name: &[u8],
    owner: Option<u32>,
    signature: Option<Seq<u32>>,
) -> Result<Option<Seq<u32>>, NoMemory>
    ensures { IfOk result (λ code. code ≡ code_of_member name.now owner signature) }
{
    let Some(owner) = owner else {
        return Ok(None);
    };
    let Some(signature) = signature else {
        return Ok(None);
    };
    let mut code = Seq::new(alloc);
    code.push(owner)?;
    add_text(&mut code, name)?;
    code.extend_from_slice(signature.as_slice())?;
    Ok(Some(code))
}

/// The numbers of the type that a signature names, where it is good.
fn code_of_type(
    alloc: Global,
    scope: &Scope<'_>,
    asm: AsmId,
    signature: &Sig,
) -> Result<Option<Seq<u32>>, NoMemory>
    ensures { IfOk result (λ code. code ≡ option_map type_code (good_type (sig_expr (names_by scope.now.all.now scope.now.links.now asm.0) signature.now))) }
{
    match scope.type_of(alloc, asm, signature)? {
        None => Ok(None),
        Some(ty) => {
            let mut code = Seq::new(alloc);
            add_type(&mut code, &ty)?;
            Ok(Some(code))
        }
    }
}

/// The numbers of the types that some signatures name, where all are good.
fn codes_of_types(
    alloc: Global,
    scope: &Scope<'_>,
    asm: AsmId,
    types: &[Sig],
) -> Result<Option<Seq<u32>>, NoMemory>
    ensures { IfOk result (λ code. code ≡ codes_of_types scope.now.all.now scope.now.links.now asm.0 types.now) }
{
    let mut code = Seq::new(alloc);
    for signature in types {
        match scope.type_of(alloc, asm, signature)? {
            None => return Ok(None),
            Some(ty) => add_type(&mut code, &ty)?,
        }
    }
    Ok(Some(code))
}

/// The numbers of a method's signature, by those of its return and of its parameters.
fn code_of_parts(
    alloc: Global,
    signature: &MethodSig,
    ret: Option<Seq<u32>>,
    params: Option<Seq<u32>>,
) -> Result<Option<Seq<u32>>, NoMemory>
    ensures { IfOk result (λ code. code ≡ code_of_parts signature.now ret params) }
{
    let Some(ret) = ret else {
        return Ok(None);
    };
    let Some(params) = params else {
        return Ok(None);
    };
    let mut code = Seq::new(alloc);
    code.push(bit(signature.this))?;
    code.push(signature.generic)?;
    add_count(&mut code, signature.params.len())?;
    code.extend_from_slice(ret.as_slice())?;
    code.extend_from_slice(params.as_slice())?;
    Ok(Some(code))
}

/// The numbers of a method's signature, where it is good.
fn code_of_signature(
    alloc: Global,
    scope: &Scope<'_>,
    asm: AsmId,
    signature: &MethodSig,
) -> Result<Option<Seq<u32>>, NoMemory>
    ensures { IfOk result (λ code. code ≡ code_of_signature scope.now.all.now scope.now.links.now asm.0 signature.now) }
{
    let ret = code_of_type(alloc, scope, asm, &signature.ret)?;
    let params = codes_of_types(alloc, scope, asm, signature.params.as_slice())?;
    let code = code_of_parts(alloc, signature, ret, params)?;
    Ok(code)
}

/// The numbers of a method's signature, where it has a reading and is good.
fn code_of_known(
    alloc: Global,
    scope: &Scope<'_>,
    asm: AsmId,
    signature: &Known<MethodSig>,
) -> Result<Option<Seq<u32>>, NoMemory>
    ensures { IfOk result (λ code. code ≡ code_of_known scope.now.all.now scope.now.links.now asm.0 signature.now) }
{
    match signature {
        Known::Good(signature) => code_of_signature(alloc, scope, asm, signature),
        Known::Bad(_) => Ok(None),
    }
}

/// The numbers of a field of this type.
fn code_of_field(
    alloc: Global,
    scope: &Scope<'_>,
    asm: AsmId,
    owner: Option<u32>,
    row: &FieldRow,
) -> Result<Option<Seq<u32>>, NoMemory>
    ensures { IfOk result (λ code. code ≡ code_of_field scope.now.all.now scope.now.links.now asm.0 owner row.now) }
{
    if is_compiler_controlled(row.flags) {
        return Ok(None);
    }
    let code = match &row.signature {
        Known::Good(signature) => code_of_type(alloc, scope, asm, signature)?,
        Known::Bad(_) => None,
    };
    code_of_member(alloc, row.name.as_slice(), owner, code)
}

/// The numbers of a method of this type.
fn code_of_method(
    alloc: Global,
    scope: &Scope<'_>,
    asm: AsmId,
    owner: Option<u32>,
    row: &MethodDefRow,
) -> Result<Option<Seq<u32>>, NoMemory>
    ensures { IfOk result (λ code. code ≡ code_of_method scope.now.all.now scope.now.links.now asm.0 owner row.now) }
{
    if is_compiler_controlled(row.flags) {
        return Ok(None);
    }
    let code = code_of_known(alloc, scope, asm, &row.signature)?;
    code_of_member(alloc, row.name.as_slice(), owner, code)
}

/// The type of a row of members.
fn owner_at(owners: &[Option<u32>], at: usize) -> Option<u32>
    requires { at < length owners.now }
    ensures { result ≡ slice_index_or owners.now at None }
{
    owners[at]
}

/// The numbers of each field of an assembly.
pub(crate) fn field_codes(
    alloc: Global,
    scope: &Scope<'_>,
    asm: AsmId,
    rec: &AsmRec,
) -> Result<Vec<Option<Seq<u32>>>, NoMemory>
    ensures { IfOk result (λ codes. codes.items ≡ field_codes scope.now.all.now scope.now.links.now asm.0 rec.now) }
{
    let owned = owners(
        alloc,
        Member::Field,
        rec.type_def.as_slice(),
        rec.field.len(),
    )?;
    let mut codes = Vec::new(alloc);
    for (at, row) in rec.field.as_slice().iter().enumerate() {
        let code = code_of_field(alloc, scope, asm, owner_at(&owned, at), row)?;
        codes.push(code)?;
    }
    Ok(codes)
}

/// The numbers of each method of an assembly.
pub(crate) fn method_codes(
    alloc: Global,
    scope: &Scope<'_>,
    asm: AsmId,
    rec: &AsmRec,
) -> Result<Vec<Option<Seq<u32>>>, NoMemory>
    ensures { IfOk result (λ codes. codes.items ≡ method_codes scope.now.all.now scope.now.links.now asm.0 rec.now) }
{
    let types = rec.type_def.as_slice();
    let owned = owners(alloc, Member::Method, types, rec.method_def.len())?;
    let mut codes = Vec::new(alloc);
    for (at, row) in rec.method_def.as_slice().iter().enumerate() {
        let code = code_of_method(alloc, scope, asm, owner_at(&owned, at), row)?;
        codes.push(code)?;
    }
    Ok(codes)
}
