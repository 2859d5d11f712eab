ghost use Rattle.std.specs.Prelude.{◌≡◌, IfOk};
ghost use Rattle.il_base.specs.world_model.Worlds.{known_then, sig_expr};
ghost use Rattle.rules.specs.link_rules.Signatures.{names_at, method_type};
ghost use Rattle.rules.specs.link_rules.Members.{is_compiler_controlled, is_method_type, is_field_type};
ghost use Rattle.type_tables.specs.member_search.Names.{first_fitting, AreNames};
ghost use Rattle.type_tables.specs.member_search.Linked.{IsLinked, IsScope};
ghost use Rattle.type_tables.specs.member_search.Wanted.{allows, run_in, rows_named, fits, member_in, member_at, look_for};

use crate::member_search::bases::{args_of, definition};
use crate::member_search::linked::{Linked, Scope, assembly_at};
use crate::member_search::method_types::{method_type, same_method_type, sig_type};
use crate::member_search::names::{Names, first_from, rows_at};
use crate::member_search::owners::Run;
use il_base::world_model::{Known, MethodDefRow, TypeDefRow, TypeExpr};
use il_base::{MethodSig, NoMemory, Sig, access_of, has_flag, method_flags};
use rules::link_rules::{MethodType, RowAt};
use std::alloc::Global;

/// The methods of a type among which one is sought (II.23.1.10).
#[derive(Clone, Copy, Debug, PartialEq, Eq)]
pub enum Among {
    /// The methods that a reference can name: all but compiler-controlled ones.
    Named,
    Virtual,
    PublicVirtual,
}

/// What a search wants beside a name: the signature of a method or the type of a field.
#[derive(Drop)]
pub enum Wanted {
    Method(Among, MethodType),
    Field(TypeExpr),
}

/// Whether a member is compiler-controlled, by its flags: no reference names such a member (II.23.1.5, II.23.1.10).
fn is_compiler_controlled(flags: u16) -> bool
    ensures { result ≡ is_compiler_controlled flags }
{
    access_of(flags) == method_flags::COMPILER_CONTROLLED
}

/// Whether a method counts.
fn allows(among: Among, row: &MethodDefRow) -> bool
    ensures { result ≡ allows among row.now }
{
    match among {
        Among::Named => !is_compiler_controlled(row.flags),
        Among::Virtual => has_flag(row.flags, method_flags::VIRTUAL),
        Among::PublicVirtual => {
            access_of(row.flags) == method_flags::PUBLIC
                && has_flag(row.flags, method_flags::VIRTUAL)
        }
    }
}

/// The rows, from 1, of such members of a type.
fn run_in(wanted: &Wanted, row: &TypeDefRow) -> Run
    ensures { result ≡ run_in wanted.now row.now }
{
    match wanted {
        Wanted::Method(_, _) => Run {
            first: row.method_list_first,
            end: row.method_list_end,
        },
        Wanted::Field(_) => Run {
            first: row.field_list_first,
            end: row.field_list_end,
        },
    }
}

/// The rows, from 0, of such members of an assembly with this name, in order.
fn rows_named<'a>(wanted: &Wanted, names: &'a Names<'_>, name: &[u8]) -> &'a [u32]
    ensures { result.now ≡ rows_named wanted.now names.now name.now }
{
    match wanted {
        Wanted::Method(_, _) => rows_at(&names.methods, name),
        Wanted::Field(_) => rows_at(&names.fields, name),
    }
}

/// Whether a method has this signature where its type has these arguments. A method with a bad signature hasn't.
fn is_method_type(
    alloc: Global,
    scope: &Scope<'_>,
    targs: &[TypeExpr],
    wanted: &MethodType,
    signature: &Known<MethodSig>,
) -> Result<bool, NoMemory>
    requires { IsScope scope.now }
    ensures { IfOk result (λ is. is ≡ is_method_type targs.now wanted.now (known_then (method_type (names_at scope.now.linked.all.now scope.now.asm scope.now.rec.now)) signature.now)) }
{
    let Known::Good(sig) = signature else {
        return Ok(false);
    };
    match method_type(alloc, scope, targs, sig) {
        Ok(Known::Good(made)) => Ok(same_method_type(&made, wanted)),
        Ok(Known::Bad(_)) => Ok(false),
        Err(error) => Err(error),
    }
}

/// Whether a field has this type where its own type has these arguments. A field with a bad signature hasn't.
fn is_field_type(
    alloc: Global,
    scope: &Scope<'_>,
    targs: &[TypeExpr],
    wanted: &TypeExpr,
    signature: &Known<Sig>,
) -> Result<bool, NoMemory>
    requires { IsScope scope.now }
    ensures { IfOk result (λ is. is ≡ is_field_type targs.now wanted.now (known_then (sig_expr (names_at scope.now.linked.all.now scope.now.asm scope.now.rec.now)) signature.now)) }
{
    let Known::Good(sig) = signature else {
        return Ok(false);
    };
    match sig_type(alloc, scope, targs, sig) {
        Ok(Known::Good(made)) => Ok(made.is_same(wanted)),
        Ok(Known::Bad(_)) => Ok(false),
        Err(error) => Err(error),
    }
}

/// Whether the member in a row, from 0, counts and has this signature where its type has these arguments.
#[tactic(auto, unfolding(crate::specs::member_search::Wanted::fits))]
fn fits(
    alloc: Global,
    scope: &Scope<'_>,
    targs: &[TypeExpr],
    wanted: &Wanted,
    k: u32,
) -> Result<bool, NoMemory>
    requires { IsScope scope.now }
    ensures { IfOk result (λ is. is ≡ fits scope.now.linked.all.now scope.now.asm scope.now.rec.now targs.now wanted.now k) }
{
    match wanted {
        Wanted::Method(among, wanted) => match scope.rec.method_def.get(k as usize) {
            Some(row) if allows(*among, row) => {
                is_method_type(alloc, scope, targs, wanted, &row.signature)
            }
            Some(_) => Ok(false),
            None => Ok(false),
        },
        Wanted::Field(wanted) => match scope.rec.field.get(k as usize) {
            Some(row) if !is_compiler_controlled(row.flags) => {
                is_field_type(alloc, scope, targs, wanted, &row.signature)
            }
            Some(_) => Ok(false),
            None => Ok(false),
        },
    }
}

/// The first of these rows before `end` whose member has this signature.
fn first_fitting(
    alloc: Global,
    scope: &Scope<'_>,
    targs: &[TypeExpr],
    wanted: &Wanted,
    end: u32,
    rows: &[u32],
) -> Result<Option<u32>, NoMemory>
    requires { IsScope scope.now }
    ensures { IfOk result (λ k. k ≡ first_fitting (fits scope.now.linked.all.now scope.now.asm scope.now.rec.now targs.now wanted.now) end rows.now) }
{
    for k in rows {
        if *k >= end {
            return Ok(None);
        }
        match fits(alloc, scope, targs, wanted, *k) {
            Ok(true) => return Ok(Some(*k)),
            Ok(false) => {}
            Err(error) => return Err(error),
        }
    }
    Ok(None)
}

/// The first member, by its row from 0, with this name and signature in the run of a type. Signatures are made only for the members
/// with the name.
fn member_in(
    alloc: Global,
    scope: &Scope<'_>,
    names: &Names<'_>,
    targs: &[TypeExpr],
    name: &[u8],
    wanted: &Wanted,
    row: &TypeDefRow,
) -> Result<Option<u32>, NoMemory>
    requires scope { IsScope scope.now }
    requires names { AreNames scope.now.rec.now names.now }
    ensures { IfOk result (λ k. k ≡ member_in scope.now.linked.all.now scope.now.asm scope.now.rec.now targs.now name.now wanted.now row.now) }
{
    let run = run_in(wanted, row);
    let rows = rows_named(wanted, names, name);
    let start = run.first.saturating_sub(1);
    let end = start + run.end.saturating_sub(run.first);
    let from = first_from(rows, start);
    let k = first_fitting(alloc, scope, targs, wanted, end, &rows[from..])?;
    Ok(k)
}

/// The member with this name and signature in the run of the type in a row, which has these arguments.
fn member_at(
    alloc: Global,
    linked: &Linked<'_>,
    targs: &[TypeExpr],
    name: &[u8],
    wanted: &Wanted,
    at: RowAt,
) -> Result<Option<RowAt>, NoMemory>
    requires { IsLinked linked.now }
    ensures { IfOk result (λ found. found ≡ member_at linked.now.all.now targs.now name.now wanted.now at) }
{
    let Some(rec) = assembly_at(linked.all, at.asm) else {
        return Ok(None);
    };
    let Some(row) = rec.type_def.get(at.row as usize) else {
        return Ok(None);
    };
    let names = &linked.names[at.asm as usize];
    let scope = Scope {
        linked: *linked,
        asm: at.asm,
        rec,
    };
    match member_in(alloc, &scope, names, targs, name, wanted, row) {
        Ok(Some(k)) => Ok(Some(RowAt {
            asm: at.asm,
            row: k,
        })),
        Ok(None) => Ok(None),
        Err(error) => Err(error),
    }
}

/// The member with this name and signature that the definition of a type has.
#[tactic(auto, unfolding(crate::specs::member_search::Wanted::look_for))]
pub fn look_for(
    alloc: Global,
    linked: &Linked<'_>,
    name: &[u8],
    wanted: &Wanted,
    ty: &TypeExpr,
) -> Result<Option<RowAt>, NoMemory>
    requires { IsLinked linked.now }
    ensures { IfOk result (λ at. at ≡ look_for linked.now.all.now name.now wanted.now ty.now) }
{
    match definition(linked.all, ty) {
        Ok(Some(at)) => member_at(alloc, linked, args_of(ty), name, wanted, at),
        Ok(None) => Ok(None),
        Err(error) => Err(error),
    }
}
