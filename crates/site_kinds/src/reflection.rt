//! The members of reflection of the core library, by their names.

ghost use Rattle.std.specs.Prelude.{◌≡◌, ◌==◌, bit_or, IfOk};
ghost use Rattle.std.specs.Option.{option_copied};
ghost use Rattle.rules.specs.type_rules.Rows.{type_row_at};
ghost use Rattle.rules.specs.flow_rules.Sources.{is_called};
ghost use Rattle.mark_parts.specs.mark_tables.Assemblies.{all_of};
ghost use Rattle.site_kinds.specs.Known.{IsAnnotated};
ghost use Rattle.rules.specs.site_rules.Kinds.{is_system_class, is_core_class, is_of_class, is_core_member, is_name_search, is_type_search, searched_kinds, is_creation, has_one_parameter, made_kinds, method_kinds};

use crate::annotated::own_method_kinds;
use crate::annotation_flags::types::signature_at;
use crate::known::Annotated;
use il_base::world_model::{AsmRec, TypeDefRow};
use il_base::{MethodId, NoMemory};
use rules::link_rules::RowAt;
use rules::mark_rules::member_kinds;
use std::alloc::Global;
use type_tables::member_search::linked::assembly_at;
use type_tables::methods::{method_home, method_row_at, type_of_method};

fn is_called(recs: &[AsmRec], name: &[u8], at: RowAt) -> bool
    ensures { result ≡ is_called recs.now name.now at }
{
    match method_row_at(recs, at) {
        None => false,
        Some(m) => m.name.as_slice() == name,
    }
}

fn is_system_class(class: &[u8], t: &TypeDefRow) -> bool
    ensures { result ≡ is_system_class class.now t.now }
{
    t.namespace.as_slice() == b"System".as_slice() && t.name.as_slice() == class
}

fn type_row_at(recs: &[AsmRec], at: RowAt) -> Option<&TypeDefRow>
    ensures { option_copied result ≡ type_row_at recs.now at }
{
    match assembly_at(recs, at.asm) {
        None => None,
        Some(rec) => rec.type_def.get(at.row as usize),
    }
}

fn is_core_class(recs: &[AsmRec], class: &[u8], at: RowAt) -> bool
    ensures { result ≡ is_core_class recs.now class.now at }
{
    if u64::from(at.asm) + 1 != recs.len() as u64 {
        return false;
    }
    match type_row_at(recs, at) {
        None => false,
        Some(t) => is_system_class(class, t),
    }
}

fn is_of_class(annotated: &Annotated<'_>, class: &[u8], at: RowAt) -> Result<bool, NoMemory>
    requires { IsAnnotated annotated.now }
    ensures { IfOk result (λ is. is ≡ is_of_class (all_of annotated.now.marker.now) class.now at) }
{
    let marker = annotated.marker;
    match type_of_method(&marker.tables, at) {
        Err(error) => Err(error),
        Ok(None) => Ok(false),
        Ok(Some(t)) => Ok(is_core_class(marker.tables.world.recs.as_slice(), class, t)),
    }
}

/// Whether a method is a member of a class in the namespace System of the core library, by their names.
#[tactic(auto, unfolding(rules::specs::site_rules::Kinds::is_core_member))]
fn is_core_member(
    annotated: &Annotated<'_>,
    m: MethodId,
    class: &[u8],
    name: &[u8],
) -> Result<bool, NoMemory>
    requires { IsAnnotated annotated.now }
    ensures { IfOk result (λ is. is ≡ is_core_member (all_of annotated.now.marker.now) m class.now name.now) }
{
    let marker = annotated.marker;
    let recs = marker.tables.world.recs.as_slice();
    match method_home(recs, m) {
        Err(error) => Err(error),
        Ok(None) => Ok(false),
        Ok(Some(at)) => {
            if !is_called(recs, name, at) {
                return Ok(false);
            }
            is_of_class(annotated, class, at)
        }
    }
}

/// Whether a method is `Type.GetType`.
#[tactic(auto, unfolding(rules::specs::site_rules::Kinds::is_name_search))]
pub fn is_name_search(annotated: &Annotated<'_>, m: MethodId) -> Result<bool, NoMemory>
    requires { IsAnnotated annotated.now }
    ensures { IfOk result (λ is. is ≡ is_name_search (all_of annotated.now.marker.now) m) }
{
    is_core_member(annotated, m, b"Type", b"GetType")
}

/// Whether a method is a search for one or for all members of a kind.
#[tactic(auto, unfolding(rules::specs::site_rules::Kinds::is_type_search))]
fn is_type_search(
    annotated: &Annotated<'_>,
    m: MethodId,
    one: &[u8],
    all: &[u8],
) -> Result<bool, NoMemory>
    requires { IsAnnotated annotated.now }
    ensures { IfOk result (λ is. is ≡ is_type_search (all_of annotated.now.marker.now) m one.now all.now) }
{
    let for_one = is_core_member(annotated, m, b"Type", one)?;
    let for_all = is_core_member(annotated, m, b"Type", all)?;
    Ok(for_one || for_all)
}

/// What a search asks for of the type that it is called on; 0 for any other method.
#[tactic(auto, unfolding(rules::specs::site_rules::Kinds::searched_kinds))]
pub fn searched_kinds(annotated: &Annotated<'_>, m: MethodId) -> Result<u32, NoMemory>
    requires { IsAnnotated annotated.now }
    ensures { IfOk result (λ kinds. kinds ≡ searched_kinds (all_of annotated.now.marker.now) m) }
{
    let methods = is_type_search(annotated, m, b"GetMethod", b"GetMethods")?;
    if methods {
        return Ok(member_kinds::PUBLIC_METHODS);
    }
    let fields = is_type_search(annotated, m, b"GetField", b"GetFields")?;
    if fields {
        return Ok(member_kinds::PUBLIC_FIELDS);
    }
    let properties = is_type_search(annotated, m, b"GetProperty", b"GetProperties")?;
    if properties {
        return Ok(member_kinds::PUBLIC_PROPERTIES);
    }
    Ok(0)
}

/// Whether a method is `Activator.CreateInstance`.
#[tactic(auto, unfolding(rules::specs::site_rules::Kinds::is_creation))]
pub fn is_creation(annotated: &Annotated<'_>, m: MethodId) -> Result<bool, NoMemory>
    requires { IsAnnotated annotated.now }
    ensures { IfOk result (λ is. is ≡ is_creation (all_of annotated.now.marker.now) m) }
{
    is_core_member(annotated, m, b"Activator", b"CreateInstance")
}

/// Whether a method has one generic parameter.
#[tactic(auto, unfolding(rules::specs::site_rules::Kinds::has_one_parameter))]
fn has_one_parameter(annotated: &Annotated<'_>, m: MethodId) -> Result<bool, NoMemory>
    requires { IsAnnotated annotated.now }
    ensures { IfOk result (λ has. has ≡ has_one_parameter (all_of annotated.now.marker.now) m) }
{
    let marker = annotated.marker;
    let recs = marker.tables.world.recs.as_slice();
    match method_home(recs, m) {
        Err(error) => Err(error),
        Ok(None) => Ok(false),
        Ok(Some(at)) => match signature_at(recs, at) {
            None => Ok(false),
            Some(sig) => Ok(sig.generic == 1),
        },
    }
}

/// What `Activator.CreateInstance<T>` asks for of T; 0 for any other method.
#[tactic(auto, unfolding(rules::specs::site_rules::Kinds::made_kinds))]
fn made_kinds(annotated: &Annotated<'_>, m: MethodId, k: u32) -> Result<u32, NoMemory>
    requires { IsAnnotated annotated.now }
    ensures { IfOk result (λ kinds. kinds ≡ made_kinds (all_of annotated.now.marker.now) m k) }
{
    if k != 0 {
        return Ok(0);
    }
    let creates = is_creation(annotated, m)?;
    if !creates {
        return Ok(0);
    }
    let one = has_one_parameter(annotated, m)?;
    if !one {
        return Ok(0);
    }
    Ok(member_kinds::PUBLIC_PARAMETERLESS_CONSTRUCTOR)
}

/// What is asked for of an argument for a method's generic parameter, counted from 0.
pub fn method_kinds(
    alloc: Global,
    annotated: &Annotated<'_>,
    m: MethodId,
    k: u32,
) -> Result<u32, NoMemory>
    requires { IsAnnotated annotated.now }
    ensures { IfOk result (λ kinds. kinds ≡ method_kinds (all_of annotated.now.marker.now) m k) }
{
    let own = own_method_kinds(alloc, annotated, m, k)?;
    let made = made_kinds(annotated, m, k)?;
    Ok(own | made)
}
