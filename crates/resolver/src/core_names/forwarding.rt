//! The assembly in which the search for a name ends, through the assemblies that forward it (II.22.14).

ghost use Rattle.std.specs.Prelude.{◌≡◌, ◌<◌, suc, length, is_some, not, ◌==◌, ◌&&◌};
ghost use Rattle.rules.specs.link_rules.Types.{assembly_at, scope_assembly, encloser_in, type_in, forwarder_in, forwarded_to, ends_at};
ghost use Rattle.rules.specs.link_rules.CoreNames.{is_last, is_missing};

use crate::type_links::assembly_named;
use il_base::table::{ASSEMBLY_REF, MODULE, TYPE_DEF};
use il_base::world_model::{
    AsmRec, ExportedTypeRow, FIRST_TYPE_DEF, NestedClassRow, TypeRefRow, index_in, table_of,
};

/// The place of the assembly that an AssemblyRef row names.
fn assembly_at(all: &[AsmRec], rec: &AsmRec, row: u32) -> Option<usize>
    ensures { result ≡ assembly_at all.now rec.now row }
{
    match rec.assembly_ref.get(row as usize) {
        None => None,
        Some(row) => assembly_named(all, row.name.as_slice()),
    }
}

/// The place of the assembly of a reference's scope, where the reference is in the assembly at `a`.
pub(crate) fn scope_assembly(
    all: &[AsmRec],
    a: usize,
    rec: &AsmRec,
    row: &TypeRefRow,
) -> Option<usize>
    ensures { result ≡ scope_assembly all.now a rec.now row.now }
{
    if table_of(row.resolution_scope) == MODULE {
        return Some(a);
    }
    match index_in(ASSEMBLY_REF, row.resolution_scope) {
        None => None,
        Some(at) => assembly_at(all, rec, at),
    }
}

/// The encloser of a type, by its TypeDef token and the rows of NestedClass (II.22.32).
fn encloser_in(token: u64, rows: &[NestedClassRow]) -> Option<u32>
    ensures { result ≡ encloser_in token rows.now }
{
    for row in rows {
        if u64::from(row.nested_class) == token {
            return index_in(TYPE_DEF, row.enclosing_class);
        }
    }
    None
}

/// Whether an assembly has a type of this namespace and name that isn't nested.
#[tactic(auto, unfolding(rules::specs::link_rules::Types::type_in, rules::specs::link_rules::Types::encloser))]
fn has_type(rec: &AsmRec, namespace: &[u8], name: &[u8]) -> bool
    ensures { result ≡ is_some (type_in rec.now None namespace.now name.now) }
{
    let mut token = u64::from(FIRST_TYPE_DEF);
    for row in rec.type_def.as_slice() {
        if row.name.as_slice() == name
            && row.namespace.as_slice() == namespace
            && encloser_in(token, rec.nested_class.as_slice()).is_none()
        {
            return true;
        }
        token = token.saturating_add(1);
    }
    false
}

/// The AssemblyRef row, from 0, of the first of these rows that forwards a name.
fn forwarder_in(namespace: &[u8], name: &[u8], rows: &[ExportedTypeRow]) -> Option<u32>
    ensures { result ≡ forwarder_in namespace.now name.now rows.now }
{
    for row in rows {
        if row.name.as_slice() == name
            && row.namespace.as_slice() == namespace
            && table_of(row.implementation) == ASSEMBLY_REF
        {
            return index_in(ASSEMBLY_REF, row.implementation);
        }
    }
    None
}

/// The place of the assembly to which an assembly forwards a name.
#[tactic(auto, unfolding(rules::specs::link_rules::Types::forwarded_to))]
fn forwarded_to(all: &[AsmRec], rec: &AsmRec, namespace: &[u8], name: &[u8]) -> Option<usize>
    ensures { result ≡ forwarded_to all.now rec.now namespace.now name.now }
{
    match forwarder_in(namespace, name, rec.exported_type.as_slice()) {
        None => None,
        Some(at) => assembly_at(all, rec, at),
    }
}

/// Whether an assembly is the last and lacks a name.
fn is_last_without(all: &[AsmRec], a: usize, rec: &AsmRec, namespace: &[u8], name: &[u8]) -> bool
    requires { a < length all.now }
    ensures { result ≡ (suc a == length all.now && not (is_some (type_in rec.now None namespace.now name.now))) }
{
    a + 1 == all.len() && !has_type(rec, namespace, name)
}

/// Whether the search for a name in the assembly at a place ends in the last one and finds nothing there. The types of an assembly
/// are searched only where it forwards the name or is the last.
fn ends_last(all: &[AsmRec], from: usize, namespace: &[u8], name: &[u8]) -> bool
    ensures { result ≡ is_last all.now (ends_at all.now (length all.now) namespace.now name.now from) }
{
    let mut at = from;
    for _ in 0..all.len() {
        match all.get(at) {
            None => return false,
            Some(rec) => match forwarded_to(all, rec, namespace, name) {
                None => return is_last_without(all, at, rec, namespace, name),
                Some(next) => {
                    if has_type(rec, namespace, name) {
                        return false;
                    }
                    at = next;
                }
            },
        }
    }
    false
}

/// Whether the search for a name in the assembly of a reference's scope ends in the last one and finds nothing there.
#[tactic(auto, unfolding(rules::specs::link_rules::CoreNames::is_missing))]
pub(crate) fn is_missing(
    all: &[AsmRec],
    scope: Option<usize>,
    namespace: &[u8],
    name: &[u8],
) -> bool
    ensures { result ≡ is_missing all.now scope namespace.now name.now }
{
    match scope {
        None => false,
        Some(from) => ends_last(all, from, namespace, name),
    }
}
