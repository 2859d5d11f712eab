ghost use Rattle.std.specs.Prelude.{◌≡◌, ◌++◌, length, map, IfOk, OnOk};
ghost use Rattle.std.specs.List.{range_with_len};
ghost use Rattle.il_base.specs.declared.table.TheConstants.{FIELD, METHOD_DEF, MEMBER_REF, METHOD_SPEC};
ghost use Rattle.rules.specs.link_rules.Faults.{numbered};
ghost use Rattle.rules.specs.link_rules.Members.{method_def_use, field_def_use, method_ref_use, field_ref_use, method_spec_use};
ghost use Rattle.rules.specs.link_rules.Linked.{method_link, field_link, methods_of, fields_of, links_from};
ghost use Rattle.rules.specs.link_rules.Laws.{AreTypeLinks};
ghost use Rattle.type_tables.specs.member_search.Linked.{IsScope};
ghost use Rattle.resolver.specs.member_links.Definitions.{OwnMethods, OwnFields};

use crate::member_links::definitions::{Definitions, field_def_use, method_def_use};
use crate::member_links::instances::method_spec_use;
use crate::member_links::references::{field_ref_use, method_ref_use};
use base_laws::link_laws::laws::links_tell;
use il_base::world_model::{
    AsmRec, FieldLink, FieldUse, Known, MethodLink, MethodUse, TypeLink, token_of,
};
use il_base::{AsmId, NoMemory, table};
use std::alloc::Global;
use type_tables::member_search::counted::row_of;
use type_tables::member_search::linked::{Linked, Scope};
use type_tables::member_search::names::names_of;

/// The link of a row, from 0, of a table.
fn method_link(asm: u32, table: u8, k: usize, to: Known<MethodUse>) -> Result<MethodLink, NoMemory>
    ensures { IfOk result (λ link. link ≡ method_link asm table k to) }
{
    let token = token_of(table, k)?;
    let asm = AsmId(asm);
    Ok(MethodLink { asm, token, to })
}

/// The link of a row, from 0, of a table.
fn field_link(asm: u32, table: u8, k: usize, to: Known<FieldUse>) -> Result<FieldLink, NoMemory>
    ensures { IfOk result (λ link. link ≡ field_link asm table k to) }
{
    let token = token_of(table, k)?;
    let asm = AsmId(asm);
    Ok(FieldLink { asm, token, to })
}

/// Puts the links of the MethodDef rows at the end.
fn push_method_defs(
    alloc: Global,
    scope: &Scope<'_>,
    methods: &Definitions,
    links: &mut Vec<MethodLink>,
) -> Result<(), NoMemory>
    requires { OwnMethods scope.now.rec.now methods.now }
    ensures { OnOk result (links.new.items ≡ links.old.items
        ++ map (λ k. method_link scope.now.asm METHOD_DEF k (method_def_use scope.now.linked.all.now scope.now.asm scope.now.rec.now k)) (range_with_len 0 (length scope.now.rec.now.method_def))) }
{
    for k in 0..scope.rec.method_def.len() {
        let to = method_def_use(alloc, scope, methods, row_of(k)?)?;
        links.push(method_link(scope.asm, table::METHOD_DEF, k, to)?)?;
    }
    Ok(())
}

/// Puts the links of the MemberRef rows, as those of methods, at the end.
fn push_method_refs(
    alloc: Global,
    scope: &Scope<'_>,
    links: &mut Vec<MethodLink>,
) -> Result<(), NoMemory>
    requires { IsScope scope.now }
    ensures { OnOk result (links.new.items ≡ links.old.items
        ++ numbered (λ k row. method_link scope.now.asm MEMBER_REF k (method_ref_use scope.now.linked.all.now scope.now.asm scope.now.rec.now row)) 0 scope.now.rec.now.member_ref) }
{
    for (k, row) in scope.rec.member_ref.as_slice().iter().enumerate() {
        let to = method_ref_use(alloc, scope, row)?;
        links.push(method_link(scope.asm, table::MEMBER_REF, k, to)?)?;
    }
    Ok(())
}

/// Puts the links of the MethodSpec rows at the end.
fn push_method_specs(
    alloc: Global,
    scope: &Scope<'_>,
    methods: &Definitions,
    links: &mut Vec<MethodLink>,
) -> Result<(), NoMemory>
    requires scope { IsScope scope.now }
    requires own { OwnMethods scope.now.rec.now methods.now }
    ensures { OnOk result (links.new.items ≡ links.old.items
        ++ numbered (λ k row. method_link scope.now.asm METHOD_SPEC k (method_spec_use scope.now.linked.all.now scope.now.asm scope.now.rec.now row)) 0 scope.now.rec.now.method_spec) }
{
    for (k, row) in scope.rec.method_spec.as_slice().iter().enumerate() {
        let to = method_spec_use(alloc, scope, methods, row)?;
        links.push(method_link(scope.asm, table::METHOD_SPEC, k, to)?)?;
    }
    Ok(())
}

/// Puts the links of the Field rows at the end.
fn push_field_defs(
    alloc: Global,
    scope: &Scope<'_>,
    fields: &Definitions,
    links: &mut Vec<FieldLink>,
) -> Result<(), NoMemory>
    requires { OwnFields scope.now.rec.now fields.now }
    ensures { OnOk result (links.new.items ≡ links.old.items
        ++ map (λ k. field_link scope.now.asm FIELD k (field_def_use scope.now.linked.all.now scope.now.asm scope.now.rec.now k)) (range_with_len 0 (length scope.now.rec.now.field))) }
{
    for k in 0..scope.rec.field.len() {
        let to = field_def_use(alloc, scope, fields, row_of(k)?)?;
        links.push(field_link(scope.asm, table::FIELD, k, to)?)?;
    }
    Ok(())
}

/// Puts the links of the MemberRef rows, as those of fields, at the end.
fn push_field_refs(
    alloc: Global,
    scope: &Scope<'_>,
    links: &mut Vec<FieldLink>,
) -> Result<(), NoMemory>
    requires { IsScope scope.now }
    ensures { OnOk result (links.new.items ≡ links.old.items
        ++ numbered (λ k row. field_link scope.now.asm MEMBER_REF k (field_ref_use scope.now.linked.all.now scope.now.asm scope.now.rec.now row)) 0 scope.now.rec.now.member_ref) }
{
    for (k, row) in scope.rec.member_ref.as_slice().iter().enumerate() {
        let to = field_ref_use(alloc, scope, row)?;
        links.push(field_link(scope.asm, table::MEMBER_REF, k, to)?)?;
    }
    Ok(())
}

/// Puts the links of an assembly's method tokens at the end.
#[tactic(auto, unfolding(rules::specs::link_rules::Linked::methods_of))]
fn push_methods(
    alloc: Global,
    scope: &Scope<'_>,
    links: &mut Vec<MethodLink>,
) -> Result<(), NoMemory>
    requires { IsScope scope.now }
    ensures { OnOk result (links.new.items ≡ links.old.items ++ methods_of scope.now.linked.all.now scope.now.asm scope.now.rec.now) }
{
    let methods = Definitions::of_methods(alloc, scope.rec)?;
    push_method_defs(alloc, scope, &methods, links)?;
    push_method_refs(alloc, scope, links)?;
    push_method_specs(alloc, scope, &methods, links)?;
    Ok(())
}

/// Puts the links of an assembly's field tokens at the end.
#[tactic(auto, unfolding(rules::specs::link_rules::Linked::fields_of))]
fn push_fields(alloc: Global, scope: &Scope<'_>, links: &mut Vec<FieldLink>) -> Result<(), NoMemory>
    requires { IsScope scope.now }
    ensures { OnOk result (links.new.items ≡ links.old.items ++ fields_of scope.now.linked.all.now scope.now.asm scope.now.rec.now) }
{
    let fields = Definitions::of_fields(alloc, scope.rec)?;
    push_field_defs(alloc, scope, &fields, links)?;
    push_field_refs(alloc, scope, links)?;
    Ok(())
}

/// What each method token of the assemblies names: for each assembly in order a link for each row of MethodDef, MemberRef
/// and MethodSpec. `all` are the assemblies, the core library last; `links` are the links of all their type tokens.
pub fn method_links(
    alloc: Global,
    all: &[AsmRec],
    links: &[TypeLink],
) -> Result<Vec<MethodLink>, NoMemory>
    requires { AreTypeLinks all.now links.now }
    ensures { IfOk result (λ methods. methods.items ≡ links_from (methods_of all.now) 0 all.now) }
{
    links_tell();
    let names = names_of(alloc, all)?;
    let linked = Linked {
        all,
        links,
        names: names.as_slice(),
    };
    let mut methods = Vec::new(alloc);
    for (a, rec) in all.iter().enumerate() {
        let scope = Scope {
            linked,
            asm: row_of(a)?,
            rec,
        };
        push_methods(alloc, &scope, &mut methods)?;
    }
    Ok(methods)
}

/// What each field token of the assemblies names: for each assembly in order a link for each row of Field and MemberRef.
/// `all` are the assemblies, the core library last; `links` are the links of all their type tokens.
pub fn field_links(
    alloc: Global,
    all: &[AsmRec],
    links: &[TypeLink],
) -> Result<Vec<FieldLink>, NoMemory>
    requires { AreTypeLinks all.now links.now }
    ensures { IfOk result (λ fields. fields.items ≡ links_from (fields_of all.now) 0 all.now) }
{
    links_tell();
    let names = names_of(alloc, all)?;
    let linked = Linked {
        all,
        links,
        names: names.as_slice(),
    };
    let mut fields = Vec::new(alloc);
    for (a, rec) in all.iter().enumerate() {
        let scope = Scope {
            linked,
            asm: row_of(a)?,
            rec,
        };
        push_fields(alloc, &scope, &mut fields)?;
    }
    Ok(fields)
}
