ghost use Rattle.std.specs.Prelude.{◌≡◌, length, map, slice_get, Some, IfOk};
ghost use Rattle.std.specs.Option.{option_map};
ghost use Rattle.il_base.specs.declared.table.TheConstants.{TYPE_DEF};
ghost use Rattle.il_base.specs.world_model.Tokens.{index_in};
ghost use Rattle.il_base.specs.world_model.Worlds.{row_below, types_in};
ghost use Rattle.rules.specs.link_rules.Types as types;
ghost use Rattle.rules.specs.link_rules.Types.{at_row, top_type, nested_type, type_of_scope, ref_at, ref_definition};
ghost use Rattle.resolver.specs.type_links.Index.{IsIndex};
ghost use Rattle.resolver.specs.type_links.References.{LeadsTo, come_down, definition_at};

use crate::type_links::definitions::listed;
use crate::type_links::index::TypeIndex;
use crate::type_links::names::TypeName;
use il_base::world_model::{AsmRec, TypeRefRow, index_in, table_of};
use il_base::{NoMemory, table};
use rules::link_rules::RowAt;
use std::alloc::Global;

/// The name of the type that a reference names.
fn name_of<'a>(row: &'a TypeRefRow) -> TypeName<'a>
    ensures namespace { result.namespace.now ≡ row.now.namespace }
    ensures name { result.name.now ≡ row.now.name }
{
    TypeName {
        namespace: row.namespace.as_slice(),
        name: row.name.as_slice(),
    }
}

/// The chain of a nested reference's scopes: from a TypeRef row over the TypeRef rows of its enclosers (II.22.38).
#[derive(Drop)]
struct Way<'a> {
    /// The references with a TypeRef row as their scope, the first of the chain in front.
    nested: Vec<&'a TypeRefRow>,
    /// The reference at the end of the chain, which isn't nested. None where the chain ends at no row, or comes back to one.
    top: Option<&'a TypeRefRow>,
}

/// The way from a row of these, counted from 0.
fn way_from<'a>(alloc: Global, rec: &'a AsmRec, k: u32) -> Result<Way<'a>, NoMemory>
    ensures { IfOk result (LeadsTo rec.now k) }
{
    let mut nested = Vec::new(alloc);
    let mut at = k;
    for _ in 0..rec.type_ref.len() {
        match rec.type_ref.get(at as usize) {
            None => return Ok(Way { nested, top: None }),
            Some(row) => match index_in(table::TYPE_REF, row.resolution_scope) {
                None => {
                    return Ok(Way {
                        nested,
                        top: Some(row),
                    });
                }
                Some(outer) => {
                    nested.push(row)?;
                    at = outer;
                }
            },
        }
    }
    Ok(Way { nested, top: None })
}

impl<'a> TypeIndex<'a> {
    /// The type of this name that isn't nested, in an assembly or in the one that it is forwarded to (II.22.14).
    pub fn top_type(&self, a: u32, name: TypeName<'_>) -> Option<RowAt>
        requires { IsIndex self.now }
        ensures { result ≡ top_type self.now.all.now (length self.now.all.now) name.entry.namespace.now name.entry.name.now a }
    {
        let mut at = a;
        for _ in 0..self.all.len() {
            match self.type_in(at, None, name) {
                Some(row) => return Some(RowAt { asm: at, row }),
                None => match self.forwarded(at, name) {
                    None => return None,
                    Some(next) => at = next,
                },
            }
        }
        None
    }

    /// The type with a reference's name in another type.
    fn nested_type(&self, row: &TypeRefRow, around: Option<RowAt>) -> Option<RowAt>
        requires { IsIndex self.now }
        ensures { result ≡ nested_type self.now.all.now row.now.namespace row.now.name around }
    {
        match around {
            None => None,
            Some(around) => match self.type_in(around.asm, Some(around.row), name_of(row)) {
                None => None,
                Some(row) => Some(RowAt {
                    asm: around.asm,
                    row,
                }),
            },
        }
    }
}

impl<'a> TypeIndex<'a> {
    /// The type of a reference in an assembly, by the assembly of its scope.
    fn scope_type(&self, a: u32, rec: &AsmRec, row: &TypeRefRow) -> Option<RowAt>
        requires index { IsIndex self.now }
        requires stands { slice_get self.now.all.now a ≡ Some rec.now }
        ensures { result ≡ type_of_scope self.now.all.now a rec.now row.now }
    {
        if table_of(row.resolution_scope) == table::MODULE {
            return self.top_type(a, name_of(row));
        }
        match index_in(table::ASSEMBLY_REF, row.resolution_scope) {
            None => None,
            Some(scope) => match self.assembly(a, scope) {
                None => None,
                Some(asm) => self.top_type(asm, name_of(row)),
            },
        }
    }

    /// The type of the first reference of a chain, by the type at its end.
    fn come_down(&self, nested: Vec<&TypeRefRow>, end: Option<RowAt>) -> Option<RowAt>
        requires { IsIndex self.now }
        ensures { result ≡ come_down self.now.all.now (map (λ row. row.now) nested.entry.items) end }
    {
        let mut rows = nested;
        let mut around = end;
        while let Some(row) = rows.pop() {
            around = self.nested_type(row, around);
        }
        around
    }

    /// The type that a TypeRef row of an assembly names.
    pub(crate) fn ref_at(
        &self,
        alloc: Global,
        a: u32,
        rec: &AsmRec,
        k: u32,
    ) -> Result<Option<RowAt>, NoMemory>
        requires index { IsIndex self.now }
        requires stands { slice_get self.now.all.now a ≡ Some rec.now }
        ensures { IfOk result (λ at. at ≡ ref_at self.now.all.now a rec.now k) }
    {
        let Way { nested, top } = way_from(alloc, rec, k)?;
        let end = match top {
            None => None,
            Some(row) => self.scope_type(a, rec, row),
        };
        Ok(self.come_down(nested, end))
    }

    /// The definition that a TypeRef row of an assembly names, except for a modifier.
    #[tactic(auto, unfolding(rules::specs::link_rules::Types::ref_definition))]
    fn ref_definition(
        &self,
        alloc: Global,
        a: u32,
        rec: &AsmRec,
        k: u32,
    ) -> Result<Option<RowAt>, NoMemory>
        requires index { IsIndex self.now }
        requires stands { slice_get self.now.all.now a ≡ Some rec.now }
        ensures { IfOk result (λ at. at ≡ ref_definition self.now.all.now a rec.now k) }
    {
        let at = self.ref_at(alloc, a, rec, k)?;
        Ok(listed(self.all, at))
    }

    /// The definition that a TypeDef or TypeRef token of an assembly names; a type that modifiers alone find is none.
    pub fn definition_at(
        &self,
        alloc: Global,
        a: u32,
        token: u32,
    ) -> Result<Option<RowAt>, NoMemory>
        requires { IsIndex self.now }
        ensures { IfOk result (λ at. at ≡ definition_at self.now.all.now a token) }
    {
        match self.all.get(a as usize) {
            None => Ok(None),
            Some(rec) => self.definition_in(alloc, a, rec, token),
        }
    }

    #[tactic(auto, unfolding(rules::specs::link_rules::Types::definition_at))]
    fn definition_in(
        &self,
        alloc: Global,
        a: u32,
        rec: &AsmRec,
        token: u32,
    ) -> Result<Option<RowAt>, NoMemory>
        requires index { IsIndex self.now }
        requires stands { slice_get self.now.all.now a ≡ Some rec.now }
        ensures { IfOk result (λ at. at ≡ types.definition_at self.now.all.now a rec.now token) }
    {
        if table_of(token) == table::TYPE_DEF {
            return Ok(own_row(a, rec, token));
        }
        match index_in(table::TYPE_REF, token) {
            None => Ok(None),
            Some(k) => self.ref_definition(alloc, a, rec, k),
        }
    }
}

/// The row of TypeDef that a token names.
fn own_row(a: u32, rec: &AsmRec, token: u32) -> Option<RowAt>
    ensures { result ≡ option_map (at_row a) (row_below (types_in rec.now) (index_in TYPE_DEF token)) }
{
    match index_in(table::TYPE_DEF, token) {
        None => None,
        Some(row) => {
            if (row as usize) < rec.type_def.len() {
                Some(RowAt { asm: a, row })
            } else {
                None
            }
        }
    }
}
