//! Whether the type of a constructor has a name in the namespace of trimming's attributes.

ghost use Rattle.std.specs.Prelude.{◌≡◌, suc, slice_get, IfOk};
ghost use Rattle.std.specs.List.{list_any, flat_map, position_from};
ghost use Rattle.std.specs.Option.{option_map, option_and_then};
ghost use Rattle.il_base.specs.declared.table.TheConstants.{MEMBER_REF};
ghost use Rattle.il_base.specs.world_model.Tokens.{index_in};
ghost use Rattle.il_base.specs.declared.world_model.members.MemberRefRow.{MemberRefRow};
ghost use Rattle.rules.specs.declared.link_rules.row_at.RowAt.{RowAt};
ghost use Rattle.rules.specs.link_rules.Cycles.{listed};
ghost use Rattle.rules.specs.link_rules.Members.{owns_method};
ghost use Rattle.rules.specs.mark_rules.Annotations.{is_trimming, def_text, ref_text, class_text, is_called};
ghost use Rattle.mark_parts.specs.mark_tables.Assemblies.{rec_of, IsAssembly};
ghost use Rattle.attribute_values.specs.attribute_kinds.Sites.{place_in, rec_in, IsSite};
ghost use Rattle.attribute_values.specs.trimming_attributes.Texts.{type_text, row_texts, ref_row_texts, owner_texts};

use crate::attribute_kinds::site::Site;
use il_base::world_model::{
    AsmRec, CustomAttributeRow, TypeDefRow, TypeRefRow, index_in, table_of,
};
use il_base::{NoMemory, table};
use mark_parts::mark_tables::assembly::Assembly;
use rules::link_rules::RowAt;
use type_tables::methods::type_of_method;

/// Whether a namespace and a name are those of the attribute of trimming with this name.
fn is_trimming(wanted: &[u8], namespace: &[u8], name: &[u8]) -> bool
    ensures { result ≡ is_trimming wanted.now (type_text namespace.now name.now) }
{
    name == wanted && namespace == b"System.Diagnostics.CodeAnalysis".as_slice()
}

/// Whether the type in a row, from 0, is that attribute, its encloser aside.
fn row_called(rec: &AsmRec, wanted: &[u8], k: u32) -> bool
    ensures { result ≡ list_any (is_trimming wanted.now) (row_texts rec.now k) }
{
    match rec.type_def.get(k as usize) {
        Some(t) => is_trimming(wanted, t.namespace.as_slice(), t.name.as_slice()),
        None => false,
    }
}

/// Whether the type in a row, from 0, is that attribute. A nested type is none.
fn def_called(asm: &Assembly<'_>, wanted: &[u8], k: u32) -> Result<bool, NoMemory>
    requires { IsAssembly asm.now }
    ensures { IfOk result (λ is. is ≡ list_any (is_trimming wanted.now) (def_text (rec_of asm.now) k)) }
{
    match asm.encloser(k) {
        Ok(Some(_)) => Ok(false),
        Ok(None) => Ok(row_called(asm.scope.rec, wanted, k)),
        Err(error) => Err(error),
    }
}

/// Whether the type that a TypeDef token names is that attribute.
#[tactic(auto, using(crate::proofs::lemmas::trimming_attributes::Lists::none_more))]
fn def_at_called(asm: &Assembly<'_>, wanted: &[u8], k: Option<u32>) -> Result<bool, NoMemory>
    requires { IsAssembly asm.now }
    ensures { IfOk result (λ is. is ≡ list_any (is_trimming wanted.now) (flat_map (def_text (rec_of asm.now)) (listed k))) }
{
    match k {
        Some(k) => def_called(asm, wanted, k),
        None => Ok(false),
    }
}

/// Whether a reference is to that attribute. A nested type is none.
fn ref_row_called(wanted: &[u8], t: &TypeRefRow) -> bool
    ensures { result ≡ list_any (is_trimming wanted.now) (ref_row_texts t.now) }
{
    if table_of(t.resolution_scope) == table::TYPE_REF {
        return false;
    }
    is_trimming(wanted, t.namespace.as_slice(), t.name.as_slice())
}

/// Whether the reference in a row, from 0, is to that attribute.
#[tactic(auto, using(crate::proofs::lemmas::trimming_attributes::Lists::none_more))]
fn ref_called(rec: &AsmRec, wanted: &[u8], k: u32) -> bool
    ensures { result ≡ list_any (is_trimming wanted.now) (ref_text rec.now k) }
{
    match rec.type_ref.get(k as usize) {
        Some(t) => ref_row_called(wanted, t),
        None => false,
    }
}

/// Whether the type that a TypeRef token names is that attribute.
#[tactic(auto, using(crate::proofs::lemmas::trimming_attributes::Lists::none_more))]
fn ref_at_called(rec: &AsmRec, wanted: &[u8], k: Option<u32>) -> bool
    ensures { result ≡ list_any (is_trimming wanted.now) (flat_map (ref_text rec.now) (listed k)) }
{
    match k {
        Some(k) => ref_called(rec, wanted, k),
        None => false,
    }
}

/// Whether the type that a TypeDef or TypeRef token names is that attribute.
#[tactic(auto, using(crate::proofs::lemmas::trimming_attributes::Lists::any_joined))]
fn class_called(asm: &Assembly<'_>, wanted: &[u8], token: u32) -> Result<bool, NoMemory>
    requires { IsAssembly asm.now }
    ensures { IfOk result (λ is. is ≡ list_any (is_trimming wanted.now) (class_text (rec_of asm.now) token)) }
{
    let by_def = def_at_called(asm, wanted, index_in(table::TYPE_DEF, token))?;
    let by_ref = ref_at_called(asm.scope.rec, wanted, index_in(table::TYPE_REF, token));
    Ok(by_def || by_ref)
}

/// Whether the class of a reference to a member, by its row from 0, is that attribute.
#[tactic(auto, using(crate::proofs::lemmas::trimming_attributes::Lists::none_more))]
fn member_called(asm: &Assembly<'_>, wanted: &[u8], token: u32) -> Result<bool, NoMemory>
    requires { IsAssembly asm.now }
    ensures { IfOk result (λ is. is ≡ list_any (is_trimming wanted.now) (flat_map (λ (row : MemberRefRow). class_text (rec_of asm.now) row.class) (listed (option_and_then (slice_get (rec_of asm.now).member_ref) (index_in MEMBER_REF token))))) }
{
    let Some(k) = index_in(table::MEMBER_REF, token) else {
        return Ok(false);
    };
    let Some(row) = asm.scope.rec.member_ref.get(k as usize) else {
        return Ok(false);
    };
    let is = class_called(asm, wanted, row.class)?;
    Ok(is)
}

/// The row of a type.
fn row_of(at: Option<RowAt>) -> Option<u32>
    ensures { result ≡ option_map (λ (x : RowAt). x.row) at }
{
    match at {
        Some(at) => Some(at.row),
        None => None,
    }
}

/// The type that has a method of the assembly, both by their rows from 0.
fn owner_of(site: &Site<'_>, k: u32) -> Result<Option<u32>, NoMemory>
    requires { IsSite site.now }
    ensures { IfOk result (λ owner. owner ≡ position_from (owns_method (suc k)) 0 (rec_in site.now).type_def) }
{
    let asm = site.asm.scope.asm;
    let marker = site.marker;
    let found = type_of_method(&marker.tables, RowAt { asm, row: k })?;
    let row = row_of(found);
    Ok(row)
}

/// Whether the type that has a method, by its row from 0, is that attribute.
fn owner_called(site: &Site<'_>, wanted: &[u8], k: u32) -> Result<bool, NoMemory>
    requires { IsSite site.now }
    ensures { IfOk result (λ is. is ≡ list_any (is_trimming wanted.now) (owner_texts (rec_in site.now) k)) }
{
    let owner = owner_of(site, k)?;
    let is = def_at_called(&site.asm, wanted, owner)?;
    Ok(is)
}

/// Whether the type that has the method of a MethodDef token is that attribute.
#[tactic(auto, using(crate::proofs::lemmas::trimming_attributes::Lists::none_more))]
fn method_called(site: &Site<'_>, wanted: &[u8], k: Option<u32>) -> Result<bool, NoMemory>
    requires { IsSite site.now }
    ensures { IfOk result (λ is. is ≡ list_any (is_trimming wanted.now) (flat_map (owner_texts (rec_in site.now)) (listed k))) }
{
    match k {
        Some(k) => owner_called(site, wanted, k),
        None => Ok(false),
    }
}

/// Whether a row is an attribute of trimming with this name, by the type that has its constructor.
#[tactic(auto, using(crate::proofs::lemmas::trimming_attributes::Lists::any_joined))]
pub(crate) fn is_called(
    site: &Site<'_>,
    wanted: &[u8],
    row: &CustomAttributeRow,
) -> Result<bool, NoMemory>
    requires { IsSite site.now }
    ensures { IfOk result (λ is. is ≡ is_called (rec_in site.now) wanted.now row.now) }
{
    let by_def = method_called(site, wanted, index_in(table::METHOD_DEF, row.ctor))?;
    let by_ref = member_called(&site.asm, wanted, row.ctor)?;
    Ok(by_def || by_ref)
}
