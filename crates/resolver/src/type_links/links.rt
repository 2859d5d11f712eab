ghost use Rattle.std.specs.Prelude.{◌≡◌, ◌++◌, List, Some, slice_get, IfOk, OnOk};
ghost use Rattle.il_base.specs.declared.world_model.world.TypeLink.{TypeLink};
ghost use Rattle.rules.specs.link_rules.Signatures.{spec_type};
ghost use Rattle.rules.specs.link_rules.Linked.{type_link, types_of};
ghost use Rattle.rules.specs.link_rules.Laws.{AreTypeLinks};
ghost use Rattle.base_laws.specs.link_laws.Parts.{ref_link, def_link, refs_of, defs_of, specs_of};
ghost use Rattle.resolver.specs.type_links.Index.{IsIndex};
ghost use Rattle.resolver.specs.type_links.Linking.{TellsSignatures, links_before};

use crate::type_links::definitions::{added, definition_expr, known_expr, listed};
use crate::type_links::index::TypeIndex;
use il_base::world_model::{AsmRec, Known, TypeExpr, TypeLink, TypeSpecRow, expr_by, token_of};
use il_base::{AsmId, NoMemory, TypeId, table};
use rules::link_rules::RowAt;
use std::alloc::Global;

/// The link of a row, counted from 0.
fn type_link(
    a: u32,
    table: u8,
    k: usize,
    to: Known<TypeExpr>,
    added: Option<TypeId>,
) -> Result<TypeLink, NoMemory>
    ensures { IfOk result (λ l. l ≡ type_link a table k to added) }
{
    let token = token_of(table, k)?;
    Ok(TypeLink {
        asm: AsmId(a),
        token,
        to,
        added,
    })
}

/// A row's number in 32 bits.
fn row_number(k: usize) -> Result<u32, NoMemory>
    ensures { IfOk result (λ n. n ≡ k) }
{
    match u32::try_from(k) {
        Ok(row) => Ok(row),
        Err(_) => Err(NoMemory),
    }
}

#[tactic(auto, unfolding(rules::specs::link_rules::Types::ref_definition, rules::specs::link_rules::Types::added_type))]
fn ref_link(
    alloc: Global,
    index: &TypeIndex<'_>,
    a: u32,
    rec: &AsmRec,
    k: usize,
) -> Result<TypeLink, NoMemory>
    requires index { IsIndex index.now }
    requires stands { slice_get index.now.all.now a ≡ Some rec.now }
    ensures { IfOk result (λ l. l ≡ ref_link index.now.all.now a rec.now k) }
{
    let row = row_number(k)?;
    let at = index.ref_at(alloc, a, rec, row)?;
    let to = known_expr(index.all, listed(index.all, at))?;
    let added = added(index.all, at)?;
    type_link(a, table::TYPE_REF, k, to, added)
}

fn def_link(all: &[AsmRec], a: u32, k: usize) -> Result<TypeLink, NoMemory>
    ensures { IfOk result (λ l. l ≡ def_link all.now a k) }
{
    let row = row_number(k)?;
    let ty = definition_expr(all, RowAt { asm: a, row })?;
    type_link(a, table::TYPE_DEF, k, Known::Good(ty), None)
}

/// The type that a TypeSpec row names, by links in which those of the assembly's TypeRef and TypeDef rows stand.
fn spec_type(
    alloc: Global,
    all: &[AsmRec],
    links: &[TypeLink],
    a: u32,
    rec: &AsmRec,
    row: &TypeSpecRow,
) -> Result<Known<TypeExpr>, NoMemory>
    requires { TellsSignatures all.now links.now a rec.now }
    ensures { IfOk result (λ e. e ≡ spec_type all.now a rec.now row.now) }
{
    match &row.signature {
        Known::Bad(why) => Ok(Known::Bad(*why)),
        Known::Good(signature) => expr_by(alloc, all, links, AsmId(a), signature, &[], &[]),
    }
}

/// Appends the links of an assembly's TypeRef rows to these.
fn push_refs(
    alloc: Global,
    index: &TypeIndex<'_>,
    a: u32,
    rec: &AsmRec,
    links: &mut Vec<TypeLink>,
) -> Result<(), NoMemory>
    requires index { IsIndex index.now }
    requires stands { slice_get index.now.all.now a ≡ Some rec.now }
    ensures { OnOk result (links.new.items ≡ links.old.items ++ refs_of index.now.all.now a rec.now) }
{
    for k in 0..rec.type_ref.len() {
        let link = ref_link(alloc, index, a, rec, k)?;
        links.push(link)?;
    }
    Ok(())
}

/// Appends the links of an assembly's TypeDef rows to these.
fn push_defs(
    all: &[AsmRec],
    a: u32,
    rec: &AsmRec,
    links: &mut Vec<TypeLink>,
) -> Result<(), NoMemory>
    ensures { OnOk result (links.new.items ≡ links.old.items ++ defs_of all.now a rec.now) }
{
    for k in 0..rec.type_def.len() {
        let link = def_link(all, a, k)?;
        links.push(link)?;
    }
    Ok(())
}

/// Appends the links of an assembly's TypeSpec rows to these, among which those of its other rows stand.
fn push_specs(
    alloc: Global,
    all: &[AsmRec],
    a: u32,
    rec: &AsmRec,
    links: &mut Vec<TypeLink>,
) -> Result<(), NoMemory>
    requires { (more : List TypeLink) → TellsSignatures all.now (links.old.items ++ more) a rec.now }
    ensures { OnOk result (links.new.items ≡ links.old.items ++ specs_of all.now a rec.now) }
{
    for (k, row) in rec.type_spec.as_slice().iter().enumerate() {
        let to = spec_type(alloc, all, links.as_slice(), a, rec, row)?;
        let link = type_link(a, table::TYPE_SPEC, k, to, None)?;
        links.push(link)?;
    }
    Ok(())
}

/// Appends the links of an assembly to those of the assemblies before it.
fn push_links(
    alloc: Global,
    index: &TypeIndex<'_>,
    a: u32,
    rec: &AsmRec,
    links: &mut Vec<TypeLink>,
) -> Result<(), NoMemory>
    requires index { IsIndex index.now }
    requires stands { slice_get index.now.all.now a ≡ Some rec.now }
    requires before { links.old.items ≡ links_before index.now.all.now a }
    ensures { OnOk result (links.new.items ≡ links.old.items ++ types_of index.now.all.now a rec.now) }
{
    push_refs(alloc, index, a, rec, links)?;
    push_defs(index.all, a, rec, links)?;
    push_specs(alloc, index.all, a, rec, links)?;
    Ok(())
}

impl<'a> TypeIndex<'a> {
    /// The links of the TypeRef, TypeDef and TypeSpec tokens of the assemblies, which say what each names. The assemblies come in
    /// order, and in each the TypeRef, TypeDef and TypeSpec rows.
    pub fn type_links(&self, alloc: Global) -> Result<Vec<TypeLink>, NoMemory>
        requires { IsIndex self.now }
        ensures { IfOk result (λ links. AreTypeLinks self.now.all.now links.items) }
    {
        let mut links = Vec::new(alloc);
        for (a, rec) in self.all.iter().enumerate() {
            let a = row_number(a)?;
            push_links(alloc, self, a, rec, &mut links)?;
        }
        Ok(links)
    }
}

/// The links of the type tokens of these assemblies, of which the last is the core library. See `TypeIndex::type_links`.
pub fn type_links(alloc: Global, all: &[AsmRec]) -> Result<Vec<TypeLink>, NoMemory>
    ensures { IfOk result (λ links. AreTypeLinks all.now links.items) }
{
    let index = TypeIndex::of(alloc, all)?;
    index.type_links(alloc)
}
