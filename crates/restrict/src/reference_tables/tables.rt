//! The tables.

ghost use Rattle.std.specs.Prelude.{IfOk};
ghost use Rattle.rules.specs.merge_rules.Refs.{Output};
ghost use Rattle.restrict.specs.member_rows.Rows.{AreRowParts};
ghost use Rattle.restrict.specs.member_rows.Laws.{ArePartsOf};
ghost use Rattle.restrict.specs.reference_tables.Tables.{AreTablesOf};

use crate::member_rows::laws::member_rows_tell;
use crate::member_rows::{RowParts, member_ref_rows, method_spec_rows};
use il_base::world_model::{
    AssemblyRefRow, MemberRefRow, MethodSpecRow, StandAloneSigRow, TypeRefRow, TypeSpecRow,
};
use il_base::{NoMemory, Seq};
use reference_rows::laws::types_tell;
use reference_rows::reference_assemblies::assemblies::assembly_refs;
use reference_rows::rows::type_ref_rows;
use std::alloc::Global;
use token_keys::signature_rows::laws::signatures_tell;
use token_keys::signature_rows::locals::locals_rows;
use token_keys::signature_rows::type_specs::type_spec_rows;

/// The tables of references.
#[derive(Drop)]
pub struct ReferenceTables {
    pub assemblies: Seq<AssemblyRefRow>,
    pub types: Seq<TypeRefRow>,
    pub specs: Seq<TypeSpecRow>,
    pub members: Seq<MemberRefRow>,
    pub instances: Seq<MethodSpecRow>,
    pub locals: Seq<StandAloneSigRow>,
}

/// The tables of references of the output whose references and tokens these are.
pub fn reference_tables(alloc: Global, parts: &RowParts<'_>) -> Result<ReferenceTables, NoMemory>
    requires { AreRowParts parts.now }
    ensures { IfOk result (λ t. (o : Output) → ArePartsOf o parts.now → AreTablesOf o t) }
{
    types_tell();
    signatures_tell();
    member_rows_tell();
    let tokens = &parts.keys.types;
    let refs = tokens.refs;
    let assemblies = assembly_refs(alloc, tokens.scopes, refs.firsts())?;
    let types = type_ref_rows(alloc, tokens, assemblies.as_slice())?;
    let signatures = parts.keys.specs;
    let specs = type_spec_rows(alloc, parts.numbers, signatures.firsts())?;
    let members = member_ref_rows(alloc, parts)?;
    let instances = method_spec_rows(alloc, parts)?;
    let lists = parts.keys.locals;
    let locals = locals_rows(alloc, parts.numbers, lists.firsts())?;
    Ok(ReferenceTables {
        assemblies,
        types,
        specs,
        members,
        instances,
        locals,
    })
}
